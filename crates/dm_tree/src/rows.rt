// How the tree is kept: a list of rows, each with the number of its parent's row.
ghost use Rattle.std.specs.Prelude.{◌≡◌};

use crate::nodes::{Node, Stamp, Value};
use dm_acl::Acl;
use dm_base::Bytes;
use dm_uri::Name;
use std::marker::Model;

/// A row: its parent's row, its name below that, and its node. A row that isn't attached is the root, the top of a
/// subtree that was taken out, or one that was given up: that has no bytes, Type, access list and title any more, and a
/// new node may take it once no row below it is parked.
#[derive(Drop)]
pub struct Row {
    pub parent: u32,
    pub depth: u32,
    pub attached: bool,
    pub given_up: bool,
    pub name: Name,
    pub node: Node,
}

/// What a flip does, at the row of the number that comes first.
#[derive(Drop)]
pub enum Change {
    /// Puts the value back, with the VerNo and the stamp.
    Value(u32, Value, u16, Stamp),
    /// Puts the bytes of the value back, with the VerNo and the stamp.
    Bytes(u32, Bytes, u16, Stamp),
    /// Puts the access list back, or none, with the VerNo and the stamp.
    Acl(u32, Option<Acl>, u16, Stamp),
    /// Puts the title back, with the VerNo and the stamp.
    Title(u32, Bytes, u16, Stamp),
    /// Puts the name back, with the VerNo and the stamp.
    Name(u32, Name, u16, Stamp),
    /// Takes the row's subtree out.
    TakeOut(u32),
    /// Puts the row's subtree in again. As long as this stands, the subtree is parked.
    PutIn(u32),
}

/// The number of a node, which contracts see as a number. A node keeps it as long as it is in the tree or held by an
/// Undo. Once it is neither, another node may get the number.
#[derive(Clone, Copy, Debug, PartialEq, Eq)]
pub struct NodeId {
    row: u32,
}

impl Model for NodeId {
    ghost use Rattle.std.specs.Prelude.{ℕ};

    ghost Value = { ℕ };

    ghost view = { λ n. n.row };

    ghost inverse = { λ n. record { row = n } };
}

/// What takes an edit back. Flipped, it becomes what does the edit again. It is to be discarded once it isn't needed
/// any more: the rows of a subtree that it holds are used again only then.
#[derive(Drop)]
pub struct Undo {
    pub(crate) change: Change,
}

impl Model for Undo {
    ghost use Rattle.dm_tree.specs.declared.rows.Change.{Change as Changes};

    ghost Value = { Changes };

    ghost view = { λ u. u.change };
}

impl NodeId {
    pub(crate) fn of(row: u32) -> NodeId
        ensures { result ≡ row }
    {
        NodeId { row }
    }

    pub(crate) fn of_row(row: Option<u32>) -> Option<NodeId>
        ensures { result ≡ row }
    {
        match row {
            Some(row) => Some(NodeId::of(row)),
            None => None,
        }
    }

    pub(crate) fn row(self) -> u32
        ensures { result ≡ self }
    {
        self.row
    }
}

impl Undo {
    pub(crate) fn of(change: Change) -> Undo
        ensures { result ≡ change }
    {
        Undo { change }
    }

    pub(crate) fn into_change(self) -> Change
        ensures { result ≡ self }
    {
        self.change
    }
}
