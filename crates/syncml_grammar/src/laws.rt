// What tokens, messages and refusals have to do with each other, for whatever tokens.
ghost use Rattle.syncml_grammar.specs.Laws.{ReadIsFit};
ghost use Rattle.syncml_grammar.specs.Refusals.{JudgedIsComputed, StepIsRefused, FinishedIsSpelled, TakenIsRead};
ghost use Rattle.syncml_grammar.specs.Refusals.{UnreadIsText};
ghost use Rattle.syncml_grammar.specs.Decimals.{NumbersAreDecimal, PiecesAreText};
ghost use Rattle.syncml_grammar.specs.Taken.{BuiltIsTaken};

/// Law: of each list of tokens exactly one thing is judged, and it is the computed one.
pub fn judged_is_computed()
    ensures { JudgedIsComputed }
{}

/// Law: behind tokens that were taken, a step refuses a token exactly where it is refused, and for its reason.
pub fn step_is_refused()
    ensures { StepIsRefused }
{}

/// Law: the parts behind tokens that were taken are those that they spell.
pub fn finished_is_spelled()
    ensures { FinishedIsSpelled }
{}

/// Law: tokens are all taken exactly where they begin a document and no text that they close is unread.
pub fn taken_is_read()
    ensures { TakenIsRead }
{}

/// Law: what doesn't read in a document is a text or a number.
pub fn unread_is_text()
    ensures { UnreadIsText }
{}

/// Law: bytes that came one by one are a number exactly where their text is one, and the same: digits without a sign
/// or a leading zero, of 64 bits.
pub fn numbers_are_decimal()
    ensures { NumbersAreDecimal }
{}

/// Law: pieces of a number that come one after the other are one text.
pub fn pieces_are_text()
    ensures { PiecesAreText }
{}

/// Law: a builder takes the tokens that the grammar takes, and else has the first refusal, at the place of its token.
pub fn built_is_taken()
    ensures { BuiltIsTaken }
{}

/// Law: a document whose texts read, and aren't too long together, gives a message, and that is fit.
pub fn read_is_fit()
    ensures { ReadIsFit }
{}
