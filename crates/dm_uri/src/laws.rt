// What holds of URIs, over the definitions alone.
ghost use Rattle.dm_uri.specs.Laws.{ReadsGrammar, RefusesRest, ReadsWritten, OneWritten};

/// A text is read as a value exactly where the grammar says that it is a text of this value.
pub fn reads_grammar()
    ensures { ReadsGrammar }
{}

/// Each refusal comes exactly where it stands, in the stated order: a text of more than 255 bytes, a path part out of
/// form, a path that passes a limit, an unknown query.
#[tactic(auto, using(crate::proofs::Refusals::refuses_rest))]
pub fn refuses_rest()
    ensures { RefusesRest }
{}

/// What is written is read again as the same value, where it has at most 255 bytes.
#[tactic(auto, using(crate::proofs::BothWays::reads_written))]
pub fn reads_written()
    ensures { ReadsWritten }
{}

/// Texts of one value have one written form, and texts of two values have two.
pub fn one_written()
    ensures { OneWritten }
{}
