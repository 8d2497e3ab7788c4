// Each reason at its line: the first that holds.
use crate::answers::{Answer, HEAD, answer_of};
use dm_base::{LineReason, Memory};
use std::alloc::Global;
use std::test::Fail;

// A text, and the line and the reason of its refusal.
type Row = (&'static [u8], u64, LineReason);

const OPENINGS: [Row; 14] = [
    // The text is empty.
    (b"", 1, LineReason::Cut),
    (b"dm-job 1", 1, LineReason::Cut),
    (b"dm-job 2\n", 1, LineReason::Word),
    // Further words.
    (b"dm-job 1 x\n", 1, LineReason::Word),
    (b"\n", 1, LineReason::Word),
    (b"dm-job 1\n", 2, LineReason::Cut),
    (b"dm-job 1\nlimits 16384 1\n", 2, LineReason::Word),
    (b"dm-job 1\nserver s1 - - - -\n", 2, LineReason::Fields),
    (b"dm-job 1\nserver - - - - - -\n", 2, LineReason::Fields),
    // A key of one digit.
    (b"dm-job 1\nserver s1 - 0 - - -\n", 2, LineReason::Fields),
    (
        b"dm-job 1\nserver s1 - - - - -\nserver s1 - - - - -\n",
        3,
        LineReason::Word,
    ),
    (
        b"dm-job 1\nserver s1 - - - - -\nlimits 2047 1\n",
        3,
        LineReason::Fields,
    ),
    (
        b"dm-job 1\nserver s1 - - - - -\nlimits 2048 0\n",
        3,
        LineReason::Fields,
    ),
    (
        b"dm-job 1\nserver s1 - - - - -\nlimits 2048\n",
        3,
        LineReason::Fields,
    ),
];

// Behind the first three lines.
const BODIES: [Row; 34] = [
    // Before `end`.
    (b"", 4, LineReason::Cut),
    // Inside a line.
    (b"get ./A", 4, LineReason::Cut),
    (b"\n", 4, LineReason::Word),
    (b"copy ./A\n", 4, LineReason::Word),
    (b"get\n", 4, LineReason::Fields),
    (b"get ./A x\n", 4, LineReason::Fields),
    // Two spaces.
    (b"get  ./A\n", 4, LineReason::Fields),
    (b"delete\n", 4, LineReason::Fields),
    (b"exec ./A\n", 4, LineReason::Fields),
    (
        b"exec ./A ccccccccccccccccccccccccccccccccccccccccccccccccccccccccccccccccc\n",
        4,
        LineReason::Fields,
    ),
    (b"add ./A chr t\n", 4, LineReason::Fields),
    (b"add ./A chr t 616\n", 4, LineReason::Fields),
    (b"replace ./A chr t 61 61\n", 4, LineReason::Fields),
    (
        b"replace ./A fffffffffffffffffffffffffffffffffffffffffffffffffffffffffffffffff t 61\n",
        4,
        LineReason::Fields,
    ),
    // A container of a container.
    (b"atomic\natomic\n", 5, LineReason::Word),
    (b"sequence\nsequence\n", 5, LineReason::Word),
    (b"sequence\natomic x\n", 5, LineReason::Word),
    (b"atomic x\n", 4, LineReason::Fields),
    (b"sequence x\n", 4, LineReason::Fields),
    // An empty container.
    (b"atomic\nclose\n", 5, LineReason::Fields),
    (b"sequence\nclose\n", 5, LineReason::Fields),
    (b"atomic\nget ./A\nclose x\n", 6, LineReason::Fields),
    (b"close\n", 4, LineReason::Word),
    (b"close x\n", 4, LineReason::Word),
    (b"atomic\nget ./A\npackage\n", 6, LineReason::Word),
    (b"atomic\nget ./A\nend\n", 6, LineReason::Word),
    (b"atomic\nget ./A\nclose\nclose\n", 7, LineReason::Word),
    (b"atomic\nget\n", 5, LineReason::Fields),
    (b"package x\n", 4, LineReason::Fields),
    (b"end x\n", 4, LineReason::Fields),
    // The first of two.
    (b"get ./A\nget\nfoo\nend\n", 5, LineReason::Fields),
    // Behind `end`.
    (b"end\nx", 5, LineReason::Extra),
    (b"end\n\n", 5, LineReason::Extra),
    (b"end\nend\n", 5, LineReason::Extra),
];

// The number of the first row that is answered otherwise, where this stands before each.
fn wrong_row(alloc: Global, head: &[u8], rows: &[Row]) -> Result<Option<usize>, Memory> {
    for (number, (text, line, reason)) in rows.iter().enumerate() {
        if answer_of(alloc, &[(head, 1), (text, 1)])? != Answer::Bad(*line, *reason) {
            return Ok(Some(number));
        }
    }
    Ok(None)
}

#[test]
fn lines_are_refused(rt: HostRuntime) -> Result<(), Fail> {
    assert_eq!(rt; wrong_row(rt.alloc(), b"", &OPENINGS)?, None);
    assert_eq!(rt; wrong_row(rt.alloc(), HEAD, &BODIES)?, None);
    Ok(())
}
