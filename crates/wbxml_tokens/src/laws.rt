// What is read of bytes, what they spell, and what is written.
ghost use Rattle.wbxml_tokens.specs.Spelled.{SpelledTokensAreRead, ReadIsSpelled, WrongIsRefused};
ghost use Rattle.wbxml_tokens.specs.Spelled.{WrongPrologueIsRefused};
ghost use Rattle.wbxml_tokens.specs.Spelled.{UnfinishedPrologueWaits, UnfinishedPartWaits, RefusedIsTold};
ghost use Rattle.wbxml_tokens.specs.Whole.{ElementIsWhole, DocumentIsElement, CutIsTruncated};
ghost use Rattle.wbxml_tokens.specs.Written.{WrittenIsSpelled, WrittenIsRead};

/// Law: of a document that has at most 65,536 bytes, and whose prologue and body spell tokens with their places,
/// exactly these are read, and nothing is refused.
#[tactic(auto, using(crate::proofs::Documents::spelled_is_read))]
pub fn spelled_is_read()
    ensures { SpelledTokensAreRead }
{}

/// Law: where nothing is refused, the tokens that are read are spelled by the bytes, from a whole prologue up to a
/// part that isn't whole; or a prologue has begun and isn't whole.
#[tactic(auto, using(crate::proofs::Documents::read_is_spelled))]
pub fn read_is_spelled()
    ensures { ReadIsSpelled }
{}

/// Law: the part at the front of bytes of the body is refused exactly where a byte begins no token, a tag has no
/// element, a page is another than 0 and 1, an integer is too big, or a string's index isn't below the table's length.
pub fn wrong_is_refused()
    ensures { WrongIsRefused }
{}

/// Law: the prologue at the front of bytes is refused exactly where its version is another than 1.1 to 1.3, an
/// integer of it is too big, its identifier is neither the number of SyncML 1.2 nor, once the string table is whole,
/// the index of its text, or its charset is another than UTF-8.
pub fn wrong_prologue_is_refused()
    ensures { WrongPrologueIsRefused }
{}

/// Law: more bytes of a prologue are waited for exactly where no prologue stands at the front of the bytes, and none
/// that is wrong.
pub fn unfinished_prologue_waits()
    ensures { UnfinishedPrologueWaits }
{}

/// Law: more bytes of a part of the body are waited for exactly where no token and no page switch stands at the front
/// of the bytes, and nothing that is wrong.
pub fn unfinished_part_waits()
    ensures { UnfinishedPartWaits }
{}

/// Law: bytes are refused exactly at the place and for the reason of `RefusedAt`, so at one place and for one reason
/// at most.
pub fn refused_is_told()
    ensures { RefusedIsTold }
{}

/// Law: tokens are one element exactly where the extent is Whole behind all of them, and behind no fewer.
pub fn element_is_whole()
    ensures { ElementIsWhole }
{}

/// Law: bytes are a whole document exactly where none is refused, and the tokens that are read are one element.
pub fn document_is_element()
    ensures { DocumentIsElement }
{}

/// Law: bytes are refused as truncated exactly where none is refused and the tokens that are read are no element, and
/// then at their length.
pub fn cut_is_truncated()
    ensures { CutIsTruncated }
{}

/// Law: what a `TokenWriter` has written is a prologue and a body that spells the tokens it was given, where no text
/// has the byte 00, each opaque is shorter than 4,294,967,296 bytes, and no token comes behind the whole element.
#[tactic(auto, using(crate::proofs::Written::written_is_spelled))]
pub fn written_is_spelled()
    ensures { WrittenIsSpelled }
{}

/// Law: what a `TokenWriter` has written of one element is a whole document, and is read as the tokens it was given.
pub fn written_is_read()
    ensures { WrittenIsRead }
{}
