// What the tests assert most, each in one place: the words for what went wrong make the proof of a test twice as long.
use std::process::Abort;

// That no row of a table is answered otherwise than it says. This is the text of the first one that is.
pub(crate) fn assert_none_wrong(rt: &impl Abort, wrong: Option<&'static [u8]>) {
    assert_eq!(rt; wrong, None);
}

// The same of a row whose text is a str.
pub(crate) fn assert_no_text_wrong(rt: &impl Abort, wrong: Option<&'static str>) {
    assert_eq!(rt; wrong, None);
}

// The same of a row that is told by its place.
pub(crate) fn assert_no_place_wrong(rt: &impl Abort, wrong: Option<usize>) {
    assert_eq!(rt; wrong, None);
}

// That something holds, and that what it takes to tell was there.
pub(crate) fn assert_holds(rt: &impl Abort, answer: Option<bool>) {
    assert_eq!(rt; answer, Some(true));
}
