// Integers of one to five bytes, written and read.
use std::test::Fail;
use wbxml_ints::{Mb, read_mb, write_mb};

struct Written {
    number: u32,
    bytes: &'static [u8],
}

const WRITTEN: [Written; 8] = [
    Written {
        number: 0,
        bytes: b"\x00",
    },
    Written {
        number: 127,
        bytes: b"\x7f",
    },
    Written {
        number: 128,
        bytes: b"\x81\x00",
    },
    Written {
        number: 300,
        bytes: b"\x82\x2c",
    },
    Written {
        number: 0xa0,
        bytes: b"\x81\x20",
    },
    Written {
        number: 0x4000,
        bytes: b"\x81\x80\x00",
    },
    Written {
        number: 0x20_0000,
        bytes: b"\x81\x80\x80\x00",
    },
    Written {
        number: u32::MAX,
        bytes: b"\x8f\xff\xff\xff\x7f",
    },
];

// The first number that is written otherwise.
fn wrong_number() -> Option<u32> {
    for row in &WRITTEN {
        if write_mb(row.number).as_slice() != row.bytes {
            return Some(row.number);
        }
    }
    None
}

#[test]
fn writes_numbers(rt: HostRuntime) -> Result<(), Fail> {
    assert_eq!(rt; wrong_number(), None);
    Ok(())
}

struct Front {
    bytes: &'static [u8],
    found: Mb,
}

const FRONTS: [Front; 7] = [
    Front {
        bytes: b"\x80\x80\x80\x80\x05",
        found: Mb::Value { number: 5, used: 5 },
    },
    Front {
        bytes: b"\x8f\xff\xff\xff\x7f\x00",
        found: Mb::Value {
            number: u32::MAX,
            used: 5,
        },
    },
    Front {
        bytes: b"\x00\x80",
        found: Mb::Value { number: 0, used: 1 },
    },
    Front {
        bytes: b"\x90\x80\x80\x80\x00",
        found: Mb::TooBig,
    },
    Front {
        bytes: b"\x80\x80\x80\x80\x80\x00",
        found: Mb::TooBig,
    },
    Front {
        bytes: b"\x82",
        found: Mb::More,
    },
    Front {
        bytes: b"",
        found: Mb::More,
    },
];

// The number of the first row at whose front something else is found.
fn wrong_front() -> Option<usize> {
    for (at, row) in FRONTS.iter().enumerate() {
        if read_mb(row.bytes) != row.found {
            return Some(at);
        }
    }
    None
}

#[test]
fn reads_numbers(rt: HostRuntime) -> Result<(), Fail> {
    assert_eq!(rt; wrong_front(), None);
    Ok(())
}
