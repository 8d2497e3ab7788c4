// What a node of the tree is, and what callers see of it.

use dm_acl::Acl;
use dm_base::Bytes;
use dm_uri::Name;

/// When a node was changed last, as the clock told it: eight digits, `T`, six digits and `Z`. The tree keeps any
/// sixteen bytes and doesn't look at them.
#[derive(Clone, Copy, Debug, PartialEq, Eq)]
pub struct Stamp {
    pub bytes: [u8; 16],
}

/// What a leaf holds: its Format, its Type and its bytes. An interior node has the Format `node` and no bytes.
#[derive(Drop)]
pub struct Value {
    pub format: Bytes,
    pub media: Bytes,
    pub bytes: Bytes,
}

/// What a node is for. All but `Plain` belong to the device's information and to its update.
#[derive(Clone, Copy, Debug, PartialEq, Eq)]
pub enum Role {
    Plain,
    ReadOnly,
    UpdateNode,
    PkgData,
    State,
}

/// A node. Its access list is its own, and its title may be empty.
#[derive(Drop)]
pub struct Node {
    pub interior: bool,
    pub value: Value,
    pub acl: Option<Acl>,
    pub title: Bytes,
    /// How often it was changed, modulo 65,536.
    pub verno: u16,
    pub stamp: Stamp,
    pub permanent: bool,
    pub role: Role,
}

/// What a node is made of. Its VerNo will be 0, and its stamp the clock.
#[derive(Drop)]
pub struct NewNode {
    pub interior: bool,
    pub value: Value,
    pub acl: Option<Acl>,
    pub title: Bytes,
    pub permanent: bool,
    pub role: Role,
}

/// A node as it stands. It has no name exactly at the root.
#[derive(Clone, Copy)]
pub struct View<'a> {
    pub interior: bool,
    pub value: &'a Value,
    pub acl: Option<&'a Acl>,
    pub title: &'a Bytes,
    pub permanent: bool,
    pub role: Role,
    pub verno: u16,
    pub stamp: Stamp,
    pub name: Option<&'a Name>,
}
