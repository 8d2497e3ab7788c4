use dm_base::{
    Bytes, Failed, Fault, FieldForm, LineOut, LineReason, Lines, List, MemSink, MemSource, Memory,
    TakeError, field, hex_bytes, hex_into, is_field, nonce, num, put_all, take_all,
};
use std::alloc::{AllocError, Global};
use std::fmt::Display;
use std::test::Fail;

struct NumberRow {
    text: &'static str,
    want: Option<u64>,
}

const NUMBERS: [NumberRow; 6] = [
    NumberRow {
        text: "0",
        want: Some(0),
    },
    NumberRow {
        text: "07",
        want: None,
    },
    NumberRow {
        text: "",
        want: None,
    },
    NumberRow {
        text: "+7",
        want: None,
    },
    NumberRow {
        text: "18446744073709551615",
        want: Some(18_446_744_073_709_551_615),
    },
    NumberRow {
        text: "18446744073709551616",
        want: None,
    },
];

fn numbers_are_read() -> bool {
    for row in &NUMBERS {
        if num(row.text.as_bytes()) != row.want {
            return false;
        }
    }
    true
}

struct FormRow {
    form: FieldForm,
    text: &'static str,
    want: bool,
}

const FORMS: [FormRow; 11] = [
    FormRow {
        form: FieldForm::Word,
        text: "",
        want: false,
    },
    FormRow {
        form: FieldForm::Id,
        text: "-",
        want: false,
    },
    FormRow {
        form: FieldForm::Id,
        text: "a*",
        want: false,
    },
    FormRow {
        form: FieldForm::Id,
        text: "a",
        want: true,
    },
    FormRow {
        form: FieldForm::Opt,
        text: "-",
        want: true,
    },
    FormRow {
        form: FieldForm::Hex,
        text: "-",
        want: true,
    },
    FormRow {
        form: FieldForm::Hex,
        text: "",
        want: false,
    },
    FormRow {
        form: FieldForm::Nonce,
        text: "-",
        want: false,
    },
    FormRow {
        form: FieldForm::Num,
        text: "00",
        want: false,
    },
    FormRow {
        form: FieldForm::Num,
        text: "18446744073709551615",
        want: true,
    },
    FormRow {
        form: FieldForm::Num,
        text: "18446744073709551616",
        want: false,
    },
];

fn forms_are_known() -> bool {
    for row in &FORMS {
        if is_field(row.form, row.text.as_bytes()) != row.want {
            return false;
        }
    }
    true
}

struct HexRow {
    text: &'static str,
    want: Option<&'static [u8]>,
}

// Texts on both sides of 32 digits, which are read at once, and of 64.
const HEX: [HexRow; 9] = [
    HexRow {
        text: "0A",
        want: Some(b"\n"),
    },
    HexRow {
        text: "-",
        want: Some(b""),
    },
    HexRow {
        text: "0",
        want: None,
    },
    HexRow {
        text: "",
        want: None,
    },
    HexRow {
        text: "0g",
        want: None,
    },
    HexRow {
        text: "303132333435363738396162636465665A",
        want: Some(b"0123456789abcdefZ"),
    },
    HexRow {
        text: "303132333435363738396162636465665/",
        want: None,
    },
    HexRow {
        text: "30313233343536373839616263646566303132333435363738394a4B4C4d4E4f7f",
        want: Some(b"0123456789abcdef0123456789JKLMNO\x7f"),
    },
    HexRow {
        text: "303132333435363738396162636465663031323334353637383@4a4B4C4d4E4f7f",
        want: None,
    },
];

fn is_hex_row(alloc: Global, row: &HexRow) -> Result<bool, Memory> {
    let bytes = hex_bytes(alloc, row.text.as_bytes())?;
    Ok(match (&bytes, row.want) {
        (Some(bytes), Some(want)) => bytes.as_slice() == want,
        (None, None) => true,
        _ => false,
    })
}

fn digits_are_read(alloc: Global) -> Result<bool, Memory> {
    for row in &HEX {
        if !is_hex_row(alloc, row)? {
            return Ok(false);
        }
    }
    Ok(true)
}

fn is_put(alloc: Global, bytes: &[u8], digits: &[u8]) -> Result<bool, Memory> {
    let mut text = Bytes::new(alloc);
    hex_into(&mut text, bytes)?;
    Ok(text.as_slice() == digits)
}

fn is_told<E: Display>(alloc: Global, error: &E, text: &str) -> Result<bool, AllocError> {
    let told = format!(in alloc; "{error}")?;
    Ok(told.as_str() == text)
}

// A source of the bytes, three at a time, whose call with the number `failing` fails.
fn source(alloc: Global, bytes: &[u8], failing: u64) -> Result<MemSource, Memory> {
    let mut fails = List::new(alloc);
    fails.push(failing)?;
    Ok(MemSource::new(Bytes::of_slice(alloc, bytes)?, 3, fails))
}

fn is_line(lines: &Lines, answer: Result<LineOut, TakeError>, text: &str) -> bool {
    match answer {
        Ok(LineOut::Line) => lines.line() == text.as_bytes(),
        Ok(LineOut::Bad(LineReason::Cut)) => text == "Cut",
        Ok(LineOut::Bad(_)) => false,
        Ok(LineOut::End) => text == "End",
        Err(TakeError::Read) => text == "Read",
        Err(_) => false,
    }
}

fn all_lines(lines: &mut Lines, src: &mut MemSource, wants: &[&'static str]) -> bool {
    for want in wants {
        let answer = lines.next(src);
        if !is_line(lines, answer, want) {
            return false;
        }
    }
    true
}

fn are_lines(alloc: Global, bytes: &[u8], wants: &[&'static str]) -> Result<bool, Memory> {
    let mut src = source(alloc, bytes, 2)?;
    let mut lines = Lines::new(alloc);
    Ok(all_lines(&mut lines, &mut src, wants))
}

fn is_taken(
    alloc: Global,
    limit: u64,
    failing: u64,
    want: Option<TakeError>,
) -> Result<bool, Memory> {
    let mut src = source(alloc, b"abcd", failing)?;
    Ok(take_all(alloc, &mut src, limit).err() == want)
}

fn is_kept(alloc: Global) -> Result<bool, Memory> {
    let mut bytes = Bytes::new(alloc);
    bytes.extend(b"ab")?;
    bytes.push(b'c')?;
    let mut bytes = bytes.copy(alloc)?;
    bytes.drop_front(1);
    let front = bytes.as_slice() == b"bc".as_slice();
    bytes.cut_to(1);
    Ok(front && bytes.as_slice() == b"b".as_slice())
}

fn grown(alloc: Global) -> Result<List<u8>, Memory> {
    let mut list = List::with_room(alloc, 1)?;
    list.push(5)?;
    list.push(6)?;
    list.push_front(4)?;
    Ok(list)
}

// The helpers answer by one list of truths, and a test asserts once: each assertion has an exit of its own.

fn are_fields() -> bool {
    let ones = nonce(b"01010101010101010101010101010101");
    let right = [
        field(b"a b", 1).unwrap_or(b"") == b"b".as_slice(),
        field(b"a b", 2).is_none(),
        numbers_are_read(),
        forms_are_known(),
        nonce(b"-").is_none(),
        ones.map_or(false, |nonce| nonce.bytes == [1u8; 16]),
    ];
    right == [true; 6]
}

fn are_digits(alloc: Global) -> Result<bool, Memory> {
    let right = [
        digits_are_read(alloc)?,
        is_put(alloc, b"", b"-")?,
        is_put(
            alloc,
            b"0123456789:JOZaz\n",
            b"303132333435363738393a4a4f5a617a0a",
        )?,
    ];
    Ok(right == [true; 3])
}

fn puts(alloc: Global) -> Result<bool, Fault> {
    let mut sink = MemSink::new(alloc, List::new(alloc));
    put_all(&mut sink, b"abc")?;
    Ok(sink.bytes() == b"abc".as_slice())
}

fn takes(alloc: Global) -> Result<bool, Memory> {
    let right = [
        is_taken(alloc, 2, 0, Some(TakeError::TooLong))?,
        is_taken(alloc, 9, 2, Some(TakeError::Read))?,
        is_taken(alloc, 4, 0, None)?,
        is_taken(alloc, u64::MAX, 0, None)?,
        are_lines(alloc, b"ab\n\ncd", &["ab", "Read", "", "Cut", "Cut"])?,
        are_lines(alloc, b"", &["End"])?,
    ];
    Ok(right == [true; 6])
}

fn have_texts(alloc: Global) -> Result<bool, AllocError> {
    let right = [
        is_told(alloc, &Memory, "out of memory")?,
        is_told(alloc, &Failed, "a fault of what is outside")?,
        is_told(alloc, &Fault::Failed, "a fault of what is outside")?,
        is_told(alloc, &Fault::Memory, "out of memory")?,
        is_told(alloc, &TakeError::Read, "the source failed")?,
        is_told(alloc, &TakeError::TooLong, "more bytes than are taken")?,
        is_told(alloc, &TakeError::Memory, "out of memory")?,
    ];
    Ok(right == [true; 7])
}

#[test]
fn keeps_bytes(rt: HostRuntime) -> Result<(), Fail> {
    assert!(rt; is_kept(rt.alloc())?);
    Ok(())
}

#[test]
fn keeps_lists(rt: HostRuntime) -> Result<(), Fail> {
    let list = grown(rt.alloc())?;
    assert!(rt; list.as_slice() == b"\x04\x05\x06".as_slice());
    Ok(())
}

#[test]
fn reads_fields(rt: HostRuntime) {
    assert!(rt; are_fields());
}

#[test]
fn reads_and_puts_digits(rt: HostRuntime) -> Result<(), Fail> {
    assert!(rt; are_digits(rt.alloc())?);
    Ok(())
}

#[test]
fn takes_and_puts(rt: HostRuntime) -> Result<(), Fail> {
    assert!(rt; puts(rt.alloc())?);
    assert!(rt; takes(rt.alloc())?);
    Ok(())
}

#[test]
fn errors_are_told(rt: HostRuntime) -> Result<(), Fail> {
    assert!(rt; have_texts(rt.alloc())?);
    Ok(())
}
