// Parts that make no message, and why.
use dm_base::{Boxed, Bytes, List, Memory};
use std::alloc::Global;
use std::test::Fail;
use syncml_types::{Block, Command, Header, Item, Loc, Message, Plain, Unfit, Verb};

fn place(alloc: Global) -> Result<Loc, Memory> {
    Ok(Loc {
        uri: Bytes::of_slice(alloc, b"./x")?,
        name: None,
    })
}

fn header(alloc: Global) -> Result<Boxed<Header>, Memory> {
    let header = Header {
        dtd: Bytes::new(alloc),
        proto: Bytes::new(alloc),
        session: Bytes::new(alloc),
        msg: 7,
        target: place(alloc)?,
        source: place(alloc)?,
        resp_uri: None,
        no_resp: false,
        cred: None,
        meta: None,
    };
    Boxed::new(alloc, header)
}

fn items(alloc: Global, value: Option<Bytes>) -> Result<List<Item>, Memory> {
    let mut items = List::new(alloc);
    items.push(Item {
        target: Some(place(alloc)?),
        source: None,
        meta: None,
        value,
        more: false,
    })?;
    Ok(items)
}

fn unfit_of(alloc: Global, command: Command) -> Result<Option<Unfit>, Memory> {
    let mut body = List::new(alloc);
    body.push(command)?;
    Ok(Message::new(header(alloc)?, body, true).err())
}

// Why a command of this CmdID with this correlator and an item of this Data is unfit.
fn unfit_plain(
    alloc: Global,
    id: u32,
    correlator: Option<Bytes>,
    value: Option<Bytes>,
) -> Result<Option<Unfit>, Memory> {
    let items = items(alloc, value)?;
    let command = Command::Plain(Plain {
        verb: Verb::Replace,
        id,
        no_resp: false,
        meta: None,
        correlator,
        items,
    });
    unfit_of(alloc, command)
}

fn unfit_correlator(alloc: Global, text: &[u8]) -> Result<Option<Unfit>, Memory> {
    unfit_plain(alloc, 1, Some(Bytes::of_slice(alloc, text)?), None)
}

fn empty_atomic(alloc: Global) -> Command {
    Command::Atomic(Block {
        id: 1,
        no_resp: false,
        meta: None,
        members: List::new(alloc),
    })
}

// 65,536 bytes of Data.
fn long_data(alloc: Global) -> Result<Bytes, Memory> {
    let mut bytes = Bytes::of_slice(alloc, b"0123456789abcdef")?;
    for _ in 0..12 {
        let half = bytes.copy(alloc)?;
        bytes.extend(half.as_slice())?;
    }
    Ok(bytes)
}

#[test]
fn tells_what_is_unfit(rt: HostRuntime) -> Result<(), Fail> {
    let alloc = rt.alloc();
    assert_eq!(rt; unfit_plain(alloc, 1, None, None)?, None);
    assert_eq!(rt; unfit_correlator(alloc, b"\xff")?, Some(Unfit::BadText));
    assert_eq!(rt; unfit_plain(alloc, 0, None, None)?, Some(Unfit::BadNumber));
    assert_eq!(rt; unfit_of(alloc, empty_atomic(alloc))?, Some(Unfit::NoItems));
    assert_eq!(rt; unfit_correlator(alloc, b"c")?, Some(Unfit::BadCorrelator));
    assert_eq!(rt;
        unfit_plain(alloc, 1, None, Some(long_data(alloc)?))?,
        Some(Unfit::TooLong)
    );
    Ok(())
}
