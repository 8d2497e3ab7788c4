// Long texts, at their limits and just past them.
use crate::answers::{Answer, HEAD, answer_of};
use dm_base::{LineReason, Memory};
use std::alloc::Global;
use std::test::Fail;

const MEMBER: &[u8] = b"get ./0123456789012345678901234567890123456789\n";

// 2,048 bytes in hexadecimal.
const BYTES: &[u8] = &[b'5'; 4096];

const WORDS: &[u8] = &[b'x'; 3200];

// The pieces of a text, each so many times, and what it is answered.
type Row = (&'static [(&'static [u8], usize)], Answer);

// A container has 1,000 bytes at most beside its last member's Data.
#[rattlefmt::skip]
const CONTAINERS: [Row; 10] = [
    (&[(HEAD, 1), (b"atomic\n", 1), (MEMBER, 12), (b"get ", 1), (b"u", 168), (b"\n", 1), (b"close\nend\n", 1)], Answer::Packages(1)),
    (&[(HEAD, 1), (b"atomic\n", 1), (MEMBER, 12), (b"get ", 1), (b"u", 169), (b"\n", 1), (b"close\nend\n", 1)], Answer::Bad(18, LineReason::Fields)),
    (&[(HEAD, 1), (b"sequence\n", 1), (MEMBER, 12), (b"get ", 1), (b"u", 168), (b"\n", 1), (b"close\nend\n", 1)], Answer::Packages(1)),
    (&[(HEAD, 1), (b"sequence\n", 1), (MEMBER, 12), (b"get ", 1), (b"u", 169), (b"\n", 1), (b"close\nend\n", 1)], Answer::Bad(18, LineReason::Fields)),
    (&[(HEAD, 1), (b"sequence\n", 1), (MEMBER, 12), (b"exec ", 1), (b"u", 162), (b" c7\n", 1), (b"close\nend\n", 1)], Answer::Packages(1)),
    (&[(HEAD, 1), (b"sequence\n", 1), (MEMBER, 12), (b"exec ", 1), (b"u", 163), (b" c7\n", 1), (b"close\nend\n", 1)], Answer::Bad(18, LineReason::Fields)),
    (&[(HEAD, 1), (b"atomic\n", 1), (MEMBER, 12), (b"replace ", 1), (b"u", 168), (b" - - 616161616161616161616161616161616161616161616161616161\n", 1), (b"close\nend\n", 1)], Answer::Packages(1)),
    (&[(HEAD, 1), (b"atomic\n", 1), (MEMBER, 12), (b"replace ", 1), (b"u", 169), (b" - - 616161616161616161616161616161616161616161616161616161\n", 1), (b"close\nend\n", 1)], Answer::Bad(18, LineReason::Fields)),
    (&[(HEAD, 1), (b"sequence\n", 1), (MEMBER, 12), (b"add ", 1), (b"u", 157), (b" chr - 616161616161616161616161616161616161616161616161616161\n", 1), (b"close\nend\n", 1)], Answer::Packages(1)),
    (&[(HEAD, 1), (b"sequence\n", 1), (MEMBER, 12), (b"add ", 1), (b"u", 158), (b" chr - 616161616161616161616161616161616161616161616161616161\n", 1), (b"close\nend\n", 1)], Answer::Bad(18, LineReason::Fields)),
];

// A Replace of 4,194,304 bytes, a line of 8,400,000, and one byte more.
#[rattlefmt::skip]
const LONG: [Row; 6] = [
    (&[(HEAD, 1), (b"replace ./A - - ", 1), (BYTES, 2048), (b"\nend\n", 1)], Answer::Packages(1)),
    (&[(HEAD, 1), (b"replace ./A - - ", 1), (BYTES, 2048), (b"5a\nend\n", 1)], Answer::Bad(4, LineReason::Fields)),
    (&[(HEAD, 1), (WORDS, 2625), (b"\n", 1)], Answer::Bad(4, LineReason::Word)),
    (&[(HEAD, 1), (WORDS, 2625), (b"x\n", 1)], Answer::Bad(4, LineReason::Long)),
    (&[(HEAD, 1), (WORDS, 2625)], Answer::Bad(4, LineReason::Cut)),
    (&[(HEAD, 1), (WORDS, 2625), (b"x", 1)], Answer::Bad(4, LineReason::Long)),
];

// 60,000 commands in packages of two, each of one container of two members.
#[rattlefmt::skip]
const MANY: [Row; 1] = [
    (&[(HEAD, 1), (b"get ./A\nsequence\nget ./B\nreplace ./C - - 61\nclose\npackage\n", 15_000), (b"end\n", 1)], Answer::Packages(15_000)),
];

// A container of 200,000 members is refused where it ends.
#[rattlefmt::skip]
const LONG_CONTAINER: [Row; 1] = [
    (&[(HEAD, 1), (b"atomic\n", 1), (b"get ./A\n", 200_000), (b"close\nend\n", 1)], Answer::Bad(200_005, LineReason::Fields)),
];

// The number of the first row that is answered otherwise.
fn wrong_row(alloc: Global, rows: &[Row]) -> Result<Option<usize>, Memory> {
    for (number, (pieces, answer)) in rows.iter().enumerate() {
        if answer_of(alloc, pieces)? != *answer {
            return Ok(Some(number));
        }
    }
    Ok(None)
}

#[test]
fn containers_have_1000_bytes_at_most(rt: HostRuntime) -> Result<(), Fail> {
    assert_eq!(rt; wrong_row(rt.alloc(), &CONTAINERS)?, None);
    Ok(())
}

#[test]
fn objects_and_lines_have_their_limits(rt: HostRuntime) -> Result<(), Fail> {
    assert_eq!(rt; wrong_row(rt.alloc(), &LONG)?, None);
    Ok(())
}

#[test]
fn many_commands_are_read(rt: HostRuntime) -> Result<(), Fail> {
    assert_eq!(rt; wrong_row(rt.alloc(), &MANY)?, None);
    Ok(())
}

#[test]
fn long_containers_are_refused_at_their_end(rt: HostRuntime) -> Result<(), Fail> {
    assert_eq!(rt; wrong_row(rt.alloc(), &LONG_CONTAINER)?, None);
    Ok(())
}
