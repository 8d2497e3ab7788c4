// Rows that are filled and taken off.
ghost use Rattle.std.specs.Prelude.{◌≡◌, ◌≤◌, ◌<◌, ◌&&◌, length, IfOk, true, nat_le};
ghost use Rattle.std.specs.List.{AllByRecursion, list_all};
ghost use Rattle.syncml_types.specs.Canonical.{is_text};
ghost use Rattle.dm_pack.specs.Entries.{IsReady, whole_entry};
ghost use Rattle.dm_pack.specs.Filling.{IsReadyHeader};

use dm_base::{Boxed, Bytes, List, Memory};
use dm_pack::{Queue, Tail, fill};
use std::alloc::Global;
use std::test::Fail;
use syncml_types::{Command, Header, Item, Loc, Meta, ResultsCmd, StatusCmd};

/// How many entries went out whole, how many bytes of the next, how long the message is, and its end.
pub(crate) type Told = (usize, u64, usize, Tail);

/// A short text of ASCII.
pub(crate) fn text(alloc: Global, text: &[u8]) -> Result<Bytes, Memory>
    requires low { list_all (λ b. nat_le 1 b && nat_le b 127) text.now ≡ true }
    requires few { length text.now ≤ 20 }
    ensures text { IfOk result (λ b. is_text b ≡ true) }
    ensures few { IfOk result (λ b. length b ≤ 20) }
{
    Bytes::of_slice(alloc, text)
}

fn least_header(alloc: Global) -> Result<Header, Memory>
    ensures { IfOk result IsReadyHeader }
{
    Ok(Header {
        dtd: text(alloc, b"1.2")?,
        proto: text(alloc, b"DM/1.2")?,
        session: text(alloc, b"1")?,
        msg: 2,
        target: Loc {
            uri: text(alloc, b"s1")?,
            name: None,
        },
        source: Loc {
            uri: text(alloc, b"d1")?,
            name: None,
        },
        resp_uri: None,
        no_resp: false,
        cred: None,
        meta: Some(Boxed::new(
            alloc,
            Meta {
                max_msg: Some(16384),
                max_obj: Some(4194304),
                ..Meta::empty()
            },
        )?),
    })
}

/// The header of each message.
pub(crate) fn header(alloc: Global) -> Result<Boxed<Header>, Memory>
    ensures { IfOk result IsReadyHeader }
{
    Boxed::new(alloc, least_header(alloc)?)
}

fn status_of(alloc: Global, cmd: Bytes, cmd_ref: u32) -> Command
    requires text { is_text cmd ≡ true }
    requires few { length cmd ≤ 20 }
    ensures { IsReady (whole_entry result) }
{
    Command::Status(StatusCmd {
        id: 0,
        msg_ref: 1,
        cmd_ref,
        cmd,
        target_refs: List::new(alloc),
        source_refs: List::new(alloc),
        chal: None,
        code: 200,
        items: List::new(alloc),
    })
}

fn results_of(
    alloc: Global,
    uri: Bytes,
    format: Bytes,
    media: Bytes,
    value: Bytes,
) -> Result<Command, Memory>
    requires texts { (is_text uri ≡ true) × ((is_text format ≡ true) × (is_text media ≡ true)) }
    requires few { (length uri ≤ 20) × ((length format ≤ 20) × (length media ≤ 20)) }
    requires value { length value ≤ 4194304 }
    ensures { IfOk result (λ c. IsReady (whole_entry c)) }
{
    let mut items = List::new(alloc);
    items.push(Item {
        target: None,
        source: Some(Loc { uri, name: None }),
        meta: Some(Boxed::new(
            alloc,
            Meta {
                format: Some(format),
                media: Some(media),
                ..Meta::empty()
            },
        )?),
        value: Some(value),
        more: false,
    })?;
    Ok(Command::Results(ResultsCmd {
        id: 0,
        msg_ref: Some(1),
        cmd_ref: 1,
        meta: None,
        target_ref: None,
        source_ref: None,
        items,
    }))
}

/// A Status of a command, or of a header.
pub(crate) fn status(alloc: Global, cmd: &[u8], cmd_ref: u32) -> Result<Command, Memory>
    requires low { list_all (λ b. nat_le 1 b && nat_le b 127) cmd.now ≡ true }
    requires few { length cmd.now ≤ 20 }
    ensures { IfOk result (λ c. IsReady (whole_entry c)) }
{
    let cmd = text(alloc, cmd)?;
    Ok(status_of(alloc, cmd, cmd_ref))
}

fn results(alloc: Global, value: Bytes) -> Result<Command, Memory>
    requires { length value ≤ 4194304 }
    ensures { IfOk result (λ c. IsReady (whole_entry c)) }
{
    let uri = text(alloc, b"./A")?;
    let format = text(alloc, b"chr")?;
    let media = text(alloc, b"text/plain")?;
    results_of(alloc, uri, format, media, value)
}

/// Adds an entry in front, where memory suffices.
#[tactic(auto, using(dm_pack::proofs::Fixtures::first_ready))]
pub(crate) fn add_first(queue: &mut Queue, entry: Command) -> Result<(), Memory>
    requires entry { IsReady (whole_entry entry) }
    requires others { AllByRecursion IsReady queue.old }
    ensures { AllByRecursion IsReady queue.new }
{
    queue.push_front(entry)
}

/// Takes the next message out of a queue.
#[tactic(auto, using(dm_pack::proofs::Left::what_is_left_is_ready))]
pub(crate) fn sent(
    queue: &mut Queue,
    header: Boxed<Header>,
    room: u64,
    heard: bool,
) -> Result<Told, Memory>
    requires ready { AllByRecursion IsReady queue.old }
    requires header { IsReadyHeader header }
    requires room { (2048 ≤ room) × (room ≤ 65536) }
    ensures { AllByRecursion IsReady queue.new }
{
    match fill(queue, header, room, heard) {
        Err(memory) => Err(memory),
        Ok(filled) => {
            let told = (filled.whole, filled.cut, filled.bytes.len(), filled.tail);
            queue.commit(&filled);
            drop(filled);
            Ok(told)
        }
    }
}

/// Two Statuses and Results.
pub(crate) fn queue_of(alloc: Global, value: Bytes) -> Result<Queue, Memory>
    requires { length value ≤ 4194304 }
    ensures { IfOk result (AllByRecursion IsReady) }
{
    let results = results(alloc, value)?;
    let mut queue = Queue::new(alloc);
    add_first(&mut queue, results)?;
    let get = status(alloc, b"Get", 1)?;
    add_first(&mut queue, get)?;
    let first = status(alloc, b"SyncHdr", 0)?;
    add_first(&mut queue, first)?;
    Ok(queue)
}

/// A part so many times.
pub(crate) fn repeated(alloc: Global, count: usize, part: &[u8]) -> Result<Bytes, Memory> {
    let mut value = Bytes::new(alloc);
    for _ in 0..count {
        value.extend(part)?;
    }
    Ok(value)
}

// Three messages, each answered by the other side.
fn three_messages(alloc: Global, queue: Queue) -> Result<[Told; 3], Memory>
    requires { AllByRecursion IsReady queue }
{
    let mut queue = queue;
    let first = sent(&mut queue, header(alloc)?, 2048, true)?;
    let second = sent(&mut queue, header(alloc)?, 2048, true)?;
    let third = sent(&mut queue, header(alloc)?, 2048, true)?;
    Ok([first, second, third])
}

// Of 5,000 bytes 1,818 go out behind two Statuses, then as many as fit alone, and the rest.
#[test]
fn five_thousand_bytes_go_out_in_three_messages(rt: HostRuntime) -> Result<(), Fail> {
    let value = repeated(rt.alloc(), 2500, b"aa")?;
    assert!(rt; value.len() == 5000);
    let queue = queue_of(rt.alloc(), value)?;
    let [first, second, third] = three_messages(rt.alloc(), queue)?;
    assert_eq!(rt; first, (2, 1818, 2032, Tail::Nothing));
    assert_eq!(rt; (second.0, second.3), (0, Tail::Nothing));
    assert_eq!(rt; (third.0, third.1, third.3), (1, 0, Tail::Final));
    Ok(())
}
