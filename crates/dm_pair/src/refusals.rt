//! Which line of a text is refused.

ghost use Rattle.dm_pair.specs.Refused.{TextRefusalsAreFirst, TextRefusalsAreTold};

/// Law: where a text is refused, one of its lines is the first that is: those before it are whole lines within their
/// limit, each taken where it stands in the start section, the job or the events; and it is too long, or cut off, or
/// says what is refused there, or stands behind `end`.
pub fn refusals_are_first()
    ensures { TextRefusalsAreFirst }
{}

/// Law: of each text with such a line, what is written for the lines before it is written, then its number and reason,
/// and nothing more.
pub fn refusals_are_told()
    ensures { TextRefusalsAreTold }
{}
