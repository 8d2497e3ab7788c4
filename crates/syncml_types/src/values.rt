// What headers and commands are made of. Texts are UTF-8 without byte 00; Data holds any bytes.
ghost use Rattle.std.specs.Prelude.{◌≡◌, IsTrue};
ghost use Rattle.syncml_types.specs.Canonical.{is_empty_meta};
ghost use Rattle.syncml_types.specs.Message.{no_meta};

use dm_base::{Boxed, Bytes};

/// A place: an address or a URI, and the name that is told beside it.
#[derive(Drop)]
pub struct Loc {
    pub uri: Bytes,
    pub name: Option<Bytes>,
}

/// The meta information of a header, a command or an item. `size` and the two limits are in bytes.
#[derive(Drop)]
pub struct Meta {
    pub format: Option<Bytes>,
    pub media: Option<Bytes>,
    pub size: Option<u64>,
    pub next_nonce: Option<Bytes>,
    pub max_msg: Option<u64>,
    pub max_obj: Option<u64>,
    pub mark: Option<Bytes>,
    pub version: Option<Bytes>,
}

impl Meta {
    /// Meta information that tells nothing. It takes no memory.
    pub fn empty() -> Meta
        ensures { result ≡ no_meta }
    {
        Meta {
            format: None,
            media: None,
            size: None,
            next_nonce: None,
            max_msg: None,
            max_obj: None,
            mark: None,
            version: None,
        }
    }

    /// Whether it tells nothing.
    pub fn is_empty(&self) -> bool
        ensures value { result ≡ is_empty_meta self.now }
        ensures empty { IsTrue result → self.now ≡ no_meta }
    {
        matches!(
            self,
            Meta {
                format: None,
                media: None,
                size: None,
                next_nonce: None,
                max_msg: None,
                max_obj: None,
                mark: None,
                version: None,
            }
        )
    }
}

/// One item of a command. `value` is its Data, and `more` says that more of the Data follows in another message. Its
/// Meta stands in a box, as everywhere: most have none, and lists of items and commands stay small.
#[derive(Drop)]
pub struct Item {
    pub target: Option<Loc>,
    pub source: Option<Loc>,
    pub meta: Option<Boxed<Meta>>,
    pub value: Option<Bytes>,
    pub more: bool,
}

/// What a sender shows to be accepted. `value` is its Data.
#[derive(Drop)]
pub struct Cred {
    pub meta: Option<Boxed<Meta>>,
    pub value: Bytes,
}

/// The header of a message. `msg` is its MsgID.
#[derive(Drop)]
pub struct Header {
    pub dtd: Bytes,
    pub proto: Bytes,
    pub session: Bytes,
    pub msg: u32,
    pub target: Loc,
    pub source: Loc,
    pub resp_uri: Option<Bytes>,
    pub no_resp: bool,
    pub cred: Option<Cred>,
    pub meta: Option<Boxed<Meta>>,
}
