// Small values and limits that several crates speak of.

/// The length of the longest message in bytes.
pub const MESSAGE_LIMIT: u32 = 65_536;
/// The least room for a message, in bytes, that a peer may tell.
pub const LEAST_ROOM: u32 = 2_048;
/// The length in bytes of the longest value of a leaf, and of the longest object.
pub const OBJECT_LIMIT: u32 = 4_194_304;
/// The length in bytes of the longest text or Data of a message value.
pub const TEXT_LIMIT: u32 = 2_147_483_648;

/// Sixteen bytes for a challenge.
#[derive(Clone, Copy, Debug, PartialEq, Eq)]
pub struct Nonce {
    pub bytes: [u8; 16],
}

/// What one end tells the other that it takes.
#[derive(Clone, Copy, Debug, PartialEq, Eq)]
pub struct Limits {
    /// The length of a message in bytes, from `LEAST_ROOM` to `MESSAGE_LIMIT`.
    pub max_msg: u32,
    /// The length of an object in bytes, from 1 to `OBJECT_LIMIT`.
    pub max_obj: u32,
}
