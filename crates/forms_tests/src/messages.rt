// One message over sources and sinks in memory, which fail.
ghost use Rattle.std.specs.Prelude.{◌<◌};

use dm_base::{Bytes, List, MemSink, MemSource, Memory};
use dm_check::{check, show};
use dm_exit::Exit;
use std::alloc::Global;
use std::test::Fail;

// A Get of ./A, of 73 bytes.
const GET: &[u8] =
    b"\x03\xa4\x01j\x00mlq\x031.2\x00\x01r\x03DM/1.2\x00\x01e\x031\x00\x01[\x031\x00\x01nW\x03d1\x00\x01\x01gW\x03s1\
      \x00\x01\x01\x01kSK\x031\x00\x01TnW\x03./A\x00\x01\x01\x01\x01\x12\x01\x01";

const LINES: &[u8] = b"SyncML
  SyncHdr
    VerDTD 1.2
    VerProto DM/1.2
    SessionID 1
    MsgID 1
    Target
      LocURI d1
    Source
      LocURI s1
  SyncBody
    Get
      CmdID 1
      Item
        Target
          LocURI ./A
    Final
";

#[derive(Clone, Copy)]
enum Form {
    Show,
    Check,
}

/// A form; the bytes of the source, how many come at once, and the numbers of its calls that fail; those of the sink's;
/// what is answered, and what is written.
type Row = (
    Form,
    &'static [u8],
    usize,
    &'static [u64],
    &'static [u64],
    Exit,
    &'static [u8],
);

#[rattlefmt::skip]
const ROWS: [Row; 10] = [
    (Form::Check, GET, 1, &[], &[], Exit::Done, b"ok 73 73 canonical\n"),
    (Form::Check, GET, 7, &[], &[], Exit::Done, b"ok 73 73 canonical\n"),
    (Form::Show, GET, 1, &[], &[], Exit::Done, LINES),
    (Form::Show, GET, 7, &[], &[], Exit::Done, LINES),
    // No piece is taken behind a refusal.
    (Form::Check, b"\x04\xa4", 1, &[2], &[], Exit::BadInput, b"refused 0 version\n"),
    (Form::Show, b"\x04\xa4", 1, &[2], &[], Exit::BadInput, b"refused 0 version\n"),
    // In mid-stream, and where the end is asked for.
    (Form::Show, GET, 64, &[2], &[], Exit::ReadFault, b""),
    (Form::Check, GET, 73, &[2], &[], Exit::ReadFault, b""),
    (Form::Show, GET, 64, &[], &[1], Exit::WriteFault, b""),
    (Form::Check, b"\x03\xa4", 64, &[], &[1], Exit::WriteFault, b""),
];

fn run(form: Form, alloc: Global, source: &mut MemSource, sink: &mut MemSink) -> Exit {
    match form {
        Form::Show => show(alloc, source, sink),
        Form::Check => check(alloc, source, sink),
    }
}

fn is_text(written: &[u8], wanted: &[u8]) -> bool {
    written == wanted
}

fn numbers(alloc: Global, fails: &[u64]) -> Result<List<u64>, Memory> {
    Ok(List::of_vec(Vec::from_slice(alloc, fails)?))
}

fn passes(alloc: Global, row: &Row) -> Result<bool, Memory> {
    let bytes = Bytes::of_slice(alloc, row.1)?;
    let mut source = MemSource::new(bytes, row.2.max(1), numbers(alloc, row.3)?);
    let mut sink = MemSink::new(alloc, numbers(alloc, row.4)?);
    let exit = run(row.0, alloc, &mut source, &mut sink);
    Ok(exit == row.5 && is_text(sink.bytes(), row.6))
}

// The number of the first row that is answered otherwise.
fn wrong_row(alloc: Global) -> Result<Option<usize>, Memory> {
    for (number, row) in ROWS.iter().enumerate() {
        if !passes(alloc, row)? {
            return Ok(Some(number));
        }
    }
    Ok(None)
}

#[test]
fn each_row_is_answered(rt: HostRuntime) -> Result<(), Fail> {
    assert_eq!(rt; wrong_row(rt.alloc())?, None);
    Ok(())
}
