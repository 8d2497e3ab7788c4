// What holds of both ends' messages.
ghost use Rattle.dm_ends.specs.Laws.{MakesNoFault};

/// Law: the checks of a header find no fault in a message that an end makes, so they never come to 400, 505 or 513.
pub fn makes_no_fault()
    ensures { MakesNoFault }
{}
