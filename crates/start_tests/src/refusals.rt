// Each reason at its line: the first that holds.
use crate::starts::{Bad, reading};
use dm_base::{Bytes, LineReason, Memory};
use dm_start::StartReader;
use std::alloc::Global;
use std::test::Fail;

// Lines behind the first ones; the number of the line that is refused, and why.
type Row = (&'static [u8], u64, LineReason);

#[rattlefmt::skip]
const FIRST: [Row; 11] = [
    (b"dm-trace 3", 1, LineReason::Word),
    (b"dm-trace 1 x", 1, LineReason::Word),
    (b"", 1, LineReason::Word),
    (b"dm-trace 1\nlimits 16384 1", 2, LineReason::Word),
    (b"dm-trace 1\ndevice d1 Acme Box 1.2", 2, LineReason::Fields),
    (b"dm-trace 1\ndevice d1 Acme Box 1.2 eeeeeeeeeeeeeeeeeeeeeeeeeeeeeeeeeeeeeeeeeeeeeeeeeeeeeeeeeeeeeeeee",
     2, LineReason::Fields),
    (b"dm-trace 1\ndevice d1 Acme Box 1.2 en\nlimits 2047 1", 3, LineReason::Fields),
    (b"dm-trace 1\ndevice d1 Acme Box 1.2 en\nlimits 65537 1", 3, LineReason::Fields),
    (b"dm-trace 1\ndevice d1 Acme Box 1.2 en\nlimits 2048 4194305", 3, LineReason::Fields),
    (b"dm-trace 1\ndevice d1 Acme Box 1.2 en\nlimits 2048 0", 3, LineReason::Fields),
    (b"dm-trace 1\ndevice d1 Acme Box 1.2 en\nlimits 02048 1", 3, LineReason::Fields),
];

// Lines 1 to 3.
const BARE: &[u8] = b"dm-trace 1
device d1 Acme Box 1.2 en
limits 16384 4194304
";

#[rattlefmt::skip]
const ACCOUNTS: [Row; 8] = [
    (b"clock 20240101T000000Z", 4, LineReason::Word),
    (b"begin", 4, LineReason::Word),
    (b"interior ./N", 4, LineReason::Word),
    (b"account - - - - - -", 4, LineReason::Fields),
    (b"account s1 - - - -", 4, LineReason::Fields),
    (b"account s1 - 0 - - -", 4, LineReason::Fields),
    (b"account s1 - - - - 000000000000000000000000000000000000000000000000000000000000000000000000000000000\
          0000000000000000000000000000000000000000000000000", 4, LineReason::Fields),
    (b"account a+b - - - - -", 4, LineReason::Fields),
];

// Lines 1 to 3, in the other version.
const BARE_2: &[u8] = b"dm-trace 2
device d1 Acme Box 1.2 en
limits 16384 4194304
";

#[rattlefmt::skip]
const CLOCKS: [Row; 5] = [
    (b"account s1 - - - - -", 4, LineReason::Word),
    (b"clock 2024", 4, LineReason::Fields),
    (b"clock 20240101t000000Z", 4, LineReason::Fields),
    (b"clock 20240101T000000Z x", 4, LineReason::Fields),
    (b"clock 20240101T000000Z\naccount s1 - - - - -\nclock 20240101T000000Z", 6, LineReason::Word),
];

// Lines 1 to 4.
const COMMON: &[u8] = b"dm-trace 1
device d1 Acme Box 1.2 en
limits 16384 4194304
account s1 - - - - -
";

#[rattlefmt::skip]
const TREE: [Row; 40] = [
    (b"clock 20240101T000000Z", 5, LineReason::Word),
    (b"account s1 - - - - -", 5, LineReason::Account),
    (b"account s2 - - - - -\naccount s1 - - - -", 6, LineReason::Fields),
    (b"interior ./N\naccount s2 - - - - -", 6, LineReason::Word),
    (b"account t0 - - - - -\naccount t1 - - - - -\naccount t2 - - - - -\naccount t3 - - - - -\naccount t4 \
          - - - - -\naccount t5 - - - - -\naccount t6 - - - - -\naccount t7 - - - - -\naccount t8 - - - - -\na\
          ccount t9 - - - - -\naccount t10 - - - - -\naccount t11 - - - - -\naccount t12 - - - - -\naccount t1\
          3 - - - - -\naccount t14 - - - - -\naccount t15 - - - - -", 20, LineReason::Account),
    (b"leaf", 5, LineReason::Fields),
    (b"leaf ./Q/x chr text/plain 78", 5, LineReason::Tree),
    (b"leaf ./x node text/plain -", 5, LineReason::Fields),
    (b"leaf ./x text text/plain -", 5, LineReason::Fields),
    (b"leaf ./x chr text/plain 7", 5, LineReason::Fields),
    (b"leaf ./x?prop=ACL chr text/plain 78", 5, LineReason::Fields),
    (b"leaf ./x//y chr text/plain 78", 5, LineReason::Fields),
    (b"leaf ./x chr text/plain 78\nleaf ./x/y chr text/plain 78", 6, LineReason::Tree),
    (b"interior .", 5, LineReason::Tree),
    (b"interior ./N\ninterior N", 6, LineReason::Tree),
    (b"interior ./DevInfo/DevId", 5, LineReason::Tree),
    (b"interior ./N ./M", 5, LineReason::Fields),
    (b"acl ./N Get=*", 5, LineReason::Tree),
    (b"acl . Get=*&Get=s1", 5, LineReason::Tree),
    (b"acl . -", 5, LineReason::Tree),
    (b"acl . ", 5, LineReason::Fields),
    (b"title ./N -", 5, LineReason::Tree),
    (b"title . 00", 5, LineReason::Tree),
    (b"title . ff", 5, LineReason::Tree),
    (b"title . 61616161616161616161616161616161616161616161616161616161616161616161616161616161616161616161\
          6161616161616161616161616161616161616161616161616161616161616161616161616161616161616161616161616161\
          6161616161616161616161616161616161616161616161616161616161616161616161616161616161616161616161616161\
          6161616161616161616161616161616161616161616161616161616161616161616161616161616161616161616161616161\
          6161616161616161616161616161616161616161616161616161616161616161616161616161616161616161616161616161\
          61616161616161616161", 5, LineReason::Tree),
    (b"title . 6", 5, LineReason::Fields),
    (b"permanent .", 5, LineReason::Tree),
    (b"permanent ./N", 5, LineReason::Tree),
    (b"interior ./N\ninterior ./N/M\npermanent ./N/M", 7, LineReason::Tree),
    (b"fumo .", 5, LineReason::Tree),
    (b"fumo ./DevInfo/DevId/F", 5, LineReason::Tree),
    (b"interior ./N\nfumo ./N/F", 6, LineReason::Tree),
    (b"fumo ./F\nfumo ./G", 6, LineReason::Tree),
    (b"fumo ./DevInfo", 5, LineReason::Tree),
    (b"fumo ./F?list=Struct", 5, LineReason::Fields),
    (b"interior ./nnnnnnnnnnnnnnnnnnnnnnnnnnnnnnnnnnnnnnnnnnnnnnnnnnnnnnnnnnnn\ninterior ./nnnnnnnnnnnnnnnn\
          nnnnnnnnnnnnnnnnnnnnnnnnnnnnnnnnnnnnnnnnnnnn/nnnnnnnnnnnnnnnnnnnnnnnnnnnnnnnnnnnnnnnnnnnnnnnnnnnnnnn\
          nnnnn\ninterior ./nnnnnnnnnnnnnnnnnnnnnnnnnnnnnnnnnnnnnnnnnnnnnnnnnnnnnnnnnnnn/nnnnnnnnnnnnnnnnnnnnn\
          nnnnnnnnnnnnnnnnnnnnnnnnnnnnnnnnnnnnnnn/nnnnnnnnnnnnnnnnnnnnnnnnnnnnnnnnnnnnnnnnnnnnnnnnnnnnnnnnnnnn\
          \ninterior ./nnnnnnnnnnnnnnnnnnnnnnnnnnnnnnnnnnnnnnnnnnnnnnnnnnnnnnnnnnnn/nnnnnnnnnnnnnnnnnnnnnnnnnn\
          nnnnnnnnnnnnnnnnnnnnnnnnnnnnnnnnnn/nnnnnnnnnnnnnnnnnnnnnnnnnnnnnnnnnnnnnnnnnnnnnnnnnnnnnnnnnnnn/nnnn\
          nnnnnnnnnnnnnnnnnnnnnnnnnnnnnnnnnnnnnnnnnnnnnnnnnnnnnnnn\npermanent ./nnnnnnnnnnnnnnnnnnnnnnnnnnnnnn\
          nnnnnnnnnnnnnnnnnnnnnnnnnnnnnn\npermanent ./nnnnnnnnnnnnnnnnnnnnnnnnnnnnnnnnnnnnnnnnnnnnnnnnnnnnnnnn\
          nnnn/nnnnnnnnnnnnnnnnnnnnnnnnnnnnnnnnnnnnnnnnnnnnnnnnnnnnnnnnnnnn\npermanent ./nnnnnnnnnnnnnnnnnnnnn\
          nnnnnnnnnnnnnnnnnnnnnnnnnnnnnnnnnnnnnnn/nnnnnnnnnnnnnnnnnnnnnnnnnnnnnnnnnnnnnnnnnnnnnnnnnnnnnnnnnnnn\
          /nnnnnnnnnnnnnnnnnnnnnnnnnnnnnnnnnnnnnnnnnnnnnnnnnnnnnnnnnnnn\nfumo ./nnnnnnnnnnnnnnnnnnnnnnnnnnnnnn\
          nnnnnnnnnnnnnnnnnnnnnnnnnnnnnn/nnnnnnnnnnnnnnnnnnnnnnnnnnnnnnnnnnnnnnnnnnnnnnnnnnnnnnnnnnnn/nnnnnnnn\
          nnnnnnnnnnnnnnnnnnnnnnnnnnnnnnnnnnnnnnnnnnnnnnnnnnnn/mmmmmmmmmmmmmmmmmmmmmmmmmmmmmmmmmmmmmmmmmmmmmmm\
          mmmmmmmmm", 12, LineReason::Tree),
    (b"Interior ./N", 5, LineReason::Word),
    (b"", 5, LineReason::Word),
    (b"begin x", 5, LineReason::Fields),
    (b"end", 5, LineReason::Word),
];

// What is answered to these lines behind a head: whether the section is whole then, or which of them is bad.
fn answer_to(alloc: Global, head: &[u8], lines: &[u8]) -> Result<Result<bool, Bad>, Memory> {
    let mut text = Bytes::of_slice(alloc, head)?;
    text.extend(lines)?;
    let mut reader = StartReader::new(alloc);
    let answer = reading(&mut reader, text.as_slice());
    drop(reader);
    Ok(answer)
}

// The number of the first row that is answered otherwise.
fn wrong_row(alloc: Global, head: &[u8], rows: &[Row]) -> Result<Option<usize>, Memory> {
    for (place, (lines, number, reason)) in rows.iter().enumerate() {
        let wanted = Bad {
            number: *number,
            reason: Some(*reason),
        };
        if answer_to(alloc, head, lines)? != Err(wanted) {
            return Ok(Some(place));
        }
    }
    Ok(None)
}

#[test]
fn lines_are_refused(rt: HostRuntime) -> Result<(), Fail> {
    assert_eq!(rt; wrong_row(rt.alloc(), b"", &FIRST)?, None);
    assert_eq!(rt; wrong_row(rt.alloc(), BARE, &ACCOUNTS)?, None);
    assert_eq!(rt; wrong_row(rt.alloc(), BARE_2, &CLOCKS)?, None);
    assert_eq!(rt; wrong_row(rt.alloc(), COMMON, &TREE)?, None);
    Ok(())
}
