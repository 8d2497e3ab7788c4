// The object that is unfinished.
use dm_base::Bytes;
use syncml_types::Verb;

/// What the pieces of one object have in common.
#[derive(Drop)]
pub struct Key {
    pub verb: Verb,
    pub target: Option<Bytes>,
    pub in_atomic: bool,
}

/// An object of which some pieces have come: the Format and Type of the first, the Size in bytes that it told, and the
/// bytes so far.
#[derive(Drop)]
pub struct Begun {
    pub key: Key,
    pub format: Option<Bytes>,
    pub media: Option<Bytes>,
    pub size: u64,
    pub value: Bytes,
}

/// The unfinished object: none, one that is being buffered, or one whose further pieces are refused with a code.
#[derive(Drop)]
pub enum Object {
    Nothing,
    Buffering(Begun),
    Skipping(Key, u32),
}
