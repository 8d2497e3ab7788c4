// What changes the tree.
ghost use Rattle.std.specs.Prelude.{ℕ, ◌≡◌, ◌<◌, ◌≤◌, ◌+◌, ◌%◌, ◌^◌, ◌↔◌, ◌++◌, ◌∷◌, [], set, true, false, length};
ghost use Rattle.std.specs.Prelude.{IsTrue, IsSome, Option, None, Err, IfOk, IfErr, IfSome, OnOk, OnErr};
ghost use Rattle.std.specs.FinMap as map;
ghost use Rattle.dm_base.specs.Limits.{object_limit};
ghost use Rattle.dm_uri.specs.Names.{is_within_limits};
ghost use Rattle.dm_tree.specs.declared.rows.Change.TheVariants as change;
ghost use Rattle.dm_tree.specs.declared.edits.TreeError.TheVariants as error;
ghost use Rattle.dm_tree.specs.Nodes.{made as made_node, changed, counted, with_value, with_bytes};
ghost use Rattle.dm_tree.specs.Nodes.{with_acl, with_title, IsNewNode, IsValue, IsReadAgain, tree_order};
ghost use Rattle.dm_tree.specs.Rows.{nodes, ids, row_at, node_of, path_of, IsLive, IsTree, IsParkedTop, IsNoneParked};
ghost use Rattle.dm_tree.specs.Rows.{StayLive};
ghost use Rattle.dm_tree.specs.Index.{IsIndex, IsSized, IsKept};
ghost use Rattle.dm_tree.specs.Edits.{with_node, attached_as, new_row as new_row_below, pruned, without_content};
ghost use Rattle.dm_tree.specs.Fields.{with_field, change_of, IsField};
ghost use Rattle.dm_tree.specs.Undos.{Fits, TakesBack, IsInserted, IsHeld, IsDiscarded, flipped, turned};
ghost use Rattle.dm_tree.specs.Reuse.{IsUsed, IsFreeRow, IsPlaced};
ghost use Rattle.dm_tree.specs.Notes.{GoesAlike, TakesEditBack, Stays};
ghost use Rattle.dm_tree.specs.Frees.{IsGivenBack};
ghost use Rattle.dm_base.specs.Limits.{node_limit};

use crate::children::Children;
use crate::clock::Clock;
use crate::discards::{free_subtree, offer_above};
use crate::fields::Field;
use crate::index::{put_in, take_out};
use crate::new_rows::{new_row, place_row};
use crate::nodes::{NewNode, Node, Stamp, Value};
use crate::renames::flip_name;
use crate::rows::{Change, NodeId, Row, Undo};
use crate::sizes::{count_in, count_out};
use crate::tree::Tree;
use dm_acl::Acl;
use dm_base::Bytes;
use dm_uri::Name;
use std::alloc::Global;
use std::mem;
use thiserror::Error;

/// How many nodes a tree has at most.
pub const NODE_LIMIT: u32 = 65_536;

/// Why no node was added.
#[derive(Clone, Copy, Debug, PartialEq, Eq, Error)]
pub enum TreeError {
    /// The tree has 65,536 nodes.
    #[error("tree full")]
    Full,
    /// Want of memory. It also comes where 4,294,967,295 numbers are taken and none of them is at hand again.
    #[error("out of memory")]
    Memory,
}

fn made(node: NewNode, clock: Stamp) -> Node
    ensures { result ≡ made_node clock node }
{
    Node {
        interior: node.interior,
        value: node.value,
        acl: node.acl,
        title: node.title,
        verno: 0,
        stamp: clock,
        permanent: node.permanent,
        role: node.role,
    }
}

// One more, modulo 65,536.
pub(crate) fn raised(verno: u16) -> u16
    ensures { result ≡ (verno + 1) % 2 ^ 16 }
{
    verno.wrapping_add(1)
}

// Sets a field, and counts the change. Flipped, what it gives takes that back. A setter has its own case alone.
#[inline(always)]
fn put_field(rows: &mut Vec<Row>, id: u32, field: Field, clock: Stamp) -> Change
    requires { id < length rows.old.items }
    ensures rows { rows.new.items
        ≡ with_node rows.old.items id (changed clock (with_field (node_of rows.old.items id) field)) }
    ensures change { result ≡ change_of rows.old.items id field }
{
    let row = &mut rows[id as usize];
    let verno = row.node.verno;
    let stamp = row.node.stamp;
    row.node.verno = raised(verno);
    row.node.stamp = clock;
    match field {
        Field::Value(value) => {
            Change::Value(id, mem::replace(&mut row.node.value, value), verno, stamp)
        }
        Field::Bytes(bytes) => {
            Change::Bytes(
                id,
                mem::replace(&mut row.node.value.bytes, bytes),
                verno,
                stamp,
            )
        }
        Field::Acl(acl) => Change::Acl(id, mem::replace(&mut row.node.acl, acl), verno, stamp),
        Field::Title(title) => {
            Change::Title(id, mem::replace(&mut row.node.title, title), verno, stamp)
        }
    }
}

// Exchanges a node's VerNo and stamp with those that an Undo keeps.
pub(crate) fn swap_counts(node: &mut Node, verno: &mut u16, stamp: &mut Stamp)
    ensures node { node.new ≡ counted node.old verno.old stamp.old }
    ensures verno { verno.new ≡ node.old.verno }
    ensures stamp { stamp.new ≡ node.old.stamp }
{
    mem::swap(&mut node.verno, verno);
    mem::swap(&mut node.stamp, stamp);
}

fn flip_row(rows: &mut Vec<Row>, index: &mut Vec<Children>, change: &mut Change)
    requires fits { Fits rows.old.items change.old }
    requires tree { IsTree rows.old.items }
    requires index { IsIndex rows.old.items index.old.items }
    ensures rows { rows.new.items ≡ flipped rows.old.items change.old }
    ensures change { change.new ≡ turned rows.old.items change.old }
    ensures index { IsIndex rows.new.items index.new.items }
{
    match change {
        Change::Value(id, value, verno, stamp) => {
            let row = &mut rows[*id as usize];
            mem::swap(&mut row.node.value, value);
            swap_counts(&mut row.node, verno, stamp);
        }
        Change::Bytes(id, bytes, verno, stamp) => {
            let row = &mut rows[*id as usize];
            mem::swap(&mut row.node.value.bytes, bytes);
            swap_counts(&mut row.node, verno, stamp);
        }
        Change::Acl(id, acl, verno, stamp) => {
            let row = &mut rows[*id as usize];
            mem::swap(&mut row.node.acl, acl);
            swap_counts(&mut row.node, verno, stamp);
        }
        Change::Title(id, title, verno, stamp) => {
            let row = &mut rows[*id as usize];
            mem::swap(&mut row.node.title, title);
            swap_counts(&mut row.node, verno, stamp);
        }
        Change::Name(id, name, verno, stamp) => {
            flip_name(rows, index, *id, name, verno, stamp);
        }
        Change::TakeOut(id) => {
            let id = *id;
            take_out(rows, index, id);
            *change = Change::PutIn(id);
        }
        Change::PutIn(id) => {
            let id = *id;
            put_in(rows, index, id);
            *change = Change::TakeOut(id);
        }
    }
}

// Counts the rows below each row anew, where the change that may be flipped next puts a row in or takes one out.
fn recount(rows: &[Row], sizes: &mut Vec<u32>, change: &Change)
    requires tree { IsTree rows.now }
    requires fits { Fits rows.now change.now }
    requires sizes { IsSized (flipped rows.now change.now) sizes.old.items }
    ensures { IsSized rows.now sizes.new.items }
{
    match change {
        Change::TakeOut(id) => count_in(rows, sizes, *id),
        Change::PutIn(id) => count_out(rows, sizes, *id),
        _ => {}
    }
}

impl Tree {
    /// Adds a node below an interior one. Its VerNo is 0, and its stamp the clock. Which number it gets is left open:
    /// one that no node has that is in the tree or held by an Undo. It may be that of a node that was discarded.
    pub fn insert(
        &mut self,
        parent: NodeId,
        name: Name,
        node: NewNode,
    ) -> Result<(NodeId, Undo), TreeError>
        requires live { IsLive self.old.rows parent }
        requires interior { (node_of self.old.rows parent).interior ≡ true }
        requires free { map.get (nodes self.old.rows) (path_of self.old.rows parent ++ name ∷ []) ≡ None }
        requires within { IsTrue (is_within_limits (path_of self.old.rows parent ++ name ∷ [])) }
        requires permanent { node.permanent ≡ true → (node_of self.old.rows parent).permanent ≡ true }
        requires node { IsNewNode node }
        ensures ok { IfOk result (λ r.
            IsInserted self.old.rows self.new.rows parent name (made_node self.old.clock node) r.0 r.1) }
        ensures live { IfOk result (λ r. IsLive self.new.rows r.0
            × (path_of self.new.rows r.0 ≡ path_of self.old.rows parent ++ name ∷ [])) }
        ensures edit { IfOk result (λ r. TakesEditBack r.1 self.old.rows self.new.rows) }
        ensures parked { IsNoneParked self.old.rows → IsNoneParked self.new.rows }
        ensures clock { self.new.clock ≡ self.old.clock }
        ensures full { (result ≡ Err error.Full) ↔ (map.len (nodes self.old.rows) ≡ node_limit) }
        ensures err { OnErr result (self.new ≡ self.old) }
    {
        // Its contract says that the name keeps to the form and the limit.
        let _ = name.as_slice();
        if self.count() >= NODE_LIMIT {
            return Err(TreeError::Full);
        }
        let row = new_row(
            &self.rows,
            parent.row(),
            name,
            made(node, self.clock.stamp()),
        );
        let (rows, index, sizes) = (&mut self.rows, &mut self.index, &mut self.sizes);
        let id = place_row(self.alloc, rows, index, sizes, &mut self.free, row)?;
        Ok((NodeId::of(id), Undo::of(Change::TakeOut(id))))
    }

    /// Takes a node out, with all that stands below it. The Undo holds them until it is discarded. It takes no memory,
    /// and its time doesn't grow with the subtree.
    pub fn detach(&mut self, id: NodeId) -> Undo
        requires live { IsLive self.old.rows id }
        requires removable { (node_of self.old.rows id).permanent ≡ false }
        ensures nodes { nodes self.new.rows ≡ pruned (nodes self.old.rows) (path_of self.old.rows id) }
        ensures ids { ids self.new.rows ≡ pruned (ids self.old.rows) (path_of self.old.rows id) }
        ensures rows { self.new ≡ record self.old { rows = attached_as self.old.rows id false } }
        ensures undo { TakesBack result self.old.rows self.new.rows }
        ensures parked { (result ≡ change.PutIn id) × IsParkedTop self.new.rows id }
        ensures edit { TakesEditBack result self.old.rows self.new.rows }
    {
        take_out(&mut self.rows, &mut self.index, id.row());
        count_out(&self.rows, &mut self.sizes, id.row());
        Undo::of(Change::PutIn(id.row()))
    }

    // The one edit that the four setters make.
    #[inline(always)]
    fn set_field(&mut self, id: NodeId, field: Field) -> Undo
        requires live { IsLive self.old.rows id }
        requires field { IsField (node_of self.old.rows id) (path_of self.old.rows id) field }
        ensures nodes { nodes self.new.rows ≡ map.insert (nodes self.old.rows) (path_of self.old.rows id)
            (changed self.old.clock (with_field (node_of self.old.rows id) field)) }
        ensures ids { ids self.new.rows ≡ ids self.old.rows }
        ensures stays { StayLive self.old.rows self.new.rows }
        ensures rows { self.new ≡ record self.old {
          rows = with_node self.old.rows id
              (changed self.old.clock (with_field (node_of self.old.rows id) field));
        } }
        ensures undo { TakesBack result self.old.rows self.new.rows }
        ensures edit { TakesEditBack result self.old.rows self.new.rows }
    {
        let change = put_field(&mut self.rows, id.row(), field, self.clock.stamp());
        Undo::of(change)
    }

    /// Sets the Format, Type and bytes of a leaf. It takes no memory.
    pub fn set_value(&mut self, id: NodeId, value: Value) -> Undo
        requires live { IsLive self.old.rows id }
        requires leaf { (node_of self.old.rows id).interior ≡ false }
        requires value { IsValue false value }
        ensures nodes { nodes self.new.rows ≡ map.insert (nodes self.old.rows) (path_of self.old.rows id)
            (changed self.old.clock (with_value (node_of self.old.rows id) value)) }
        ensures ids { ids self.new.rows ≡ ids self.old.rows }
        ensures stays { StayLive self.old.rows self.new.rows }
        ensures rows { self.new ≡ record self.old {
          rows = with_node self.old.rows id
              (changed self.old.clock (with_value (node_of self.old.rows id) value));
        } }
        ensures undo { TakesBack result self.old.rows self.new.rows }
        ensures edit { TakesEditBack result self.old.rows self.new.rows }
    {
        self.set_field(id, Field::Value(value))
    }

    /// Sets the bytes of a leaf, at most 4,194,304. Its Format and its Type stay. It takes no memory.
    pub fn set_bytes(&mut self, id: NodeId, bytes: Bytes) -> Undo
        requires live { IsLive self.old.rows id }
        requires leaf { (node_of self.old.rows id).interior ≡ false }
        requires short { length bytes ≤ object_limit }
        ensures nodes { nodes self.new.rows ≡ map.insert (nodes self.old.rows) (path_of self.old.rows id)
            (changed self.old.clock (with_bytes (node_of self.old.rows id) bytes)) }
        ensures ids { ids self.new.rows ≡ ids self.old.rows }
        ensures stays { StayLive self.old.rows self.new.rows }
        ensures rows { self.new ≡ record self.old {
          rows = with_node self.old.rows id
              (changed self.old.clock (with_bytes (node_of self.old.rows id) bytes));
        } }
        ensures undo { TakesBack result self.old.rows self.new.rows }
        ensures edit { TakesEditBack result self.old.rows self.new.rows }
    {
        self.set_field(id, Field::Bytes(bytes))
    }

    /// Sets a node's own access list, or takes it away. The root keeps one. It takes no memory.
    pub fn set_acl(&mut self, id: NodeId, acl: Option<Acl>) -> Undo
        requires live { IsLive self.old.rows id }
        requires root { path_of self.old.rows id ≡ [] → IsSome acl }
        requires again { IfSome acl IsReadAgain }
        ensures nodes { nodes self.new.rows ≡ map.insert (nodes self.old.rows) (path_of self.old.rows id)
            (changed self.old.clock (with_acl (node_of self.old.rows id) acl)) }
        ensures ids { ids self.new.rows ≡ ids self.old.rows }
        ensures stays { StayLive self.old.rows self.new.rows }
        ensures rows { self.new ≡ record self.old {
          rows = with_node self.old.rows id
              (changed self.old.clock (with_acl (node_of self.old.rows id) acl));
        } }
        ensures undo { TakesBack result self.old.rows self.new.rows }
        ensures edit { TakesEditBack result self.old.rows self.new.rows }
    {
        self.set_field(id, Field::Acl(acl))
    }

    /// Sets a node's title, of at most 255 bytes. It takes no memory.
    pub fn set_title(&mut self, id: NodeId, title: Bytes) -> Undo
        requires live { IsLive self.old.rows id }
        requires short { length title ≤ 255 }
        ensures nodes { nodes self.new.rows ≡ map.insert (nodes self.old.rows) (path_of self.old.rows id)
            (changed self.old.clock (with_title (node_of self.old.rows id) title)) }
        ensures ids { ids self.new.rows ≡ ids self.old.rows }
        ensures stays { StayLive self.old.rows self.new.rows }
        ensures rows { self.new ≡ record self.old {
          rows = with_node self.old.rows id
              (changed self.old.clock (with_title (node_of self.old.rows id) title));
        } }
        ensures undo { TakesBack result self.old.rows self.new.rows }
        ensures edit { TakesEditBack result self.old.rows self.new.rows }
    {
        self.set_field(id, Field::Title(title))
    }

    /// Takes an edit back, the VerNo and stamp before it too, and turns the Undo into what does the edit again. The
    /// clock stays. It takes no memory.
    pub fn flip(&mut self, undo: &mut Undo)
        requires { Fits self.old.rows undo.old }
        ensures rows { self.new ≡ record self.old { rows = flipped self.old.rows undo.old } }
        ensures undo { undo.new ≡ turned self.old.rows undo.old }
        ensures again { TakesBack undo.new self.old.rows self.new.rows × (turned self.new.rows undo.new ≡ undo.old) }
        ensures held { IsHeld self.new.rows undo.new }
    {
        flip_row(&mut self.rows, &mut self.index, &mut undo.change);
        recount(&self.rows, &mut self.sizes, &undo.change);
    }

    /// Gives up what the Undo holds: its subtree, where it holds one. What its nodes held is freed at once, but for
    /// their names and Formats, and their numbers may come again, that of a node once no Undo holds one below it. All
    /// other rows that are in the tree or parked stay as they are. It takes no memory, and its time grows with the
    /// subtree alone.
    pub fn discard(&mut self, undo: Undo)
        requires { IsHeld self.old.rows undo }
        ensures nodes { nodes self.new.rows ≡ nodes self.old.rows }
        ensures ids { ids self.new.rows ≡ ids self.old.rows }
        ensures stays { StayLive self.old.rows self.new.rows }
        ensures rows { IsDiscarded undo self.old.rows self.new.rows }
        ensures alike { GoesAlike (Stays self.old.rows undo) self.old.rows self.new.rows }
        ensures parked { (k : ℕ) → IsParkedTop self.new.rows k
            → IsParkedTop self.old.rows k × Stays self.old.rows undo k }
        ensures used { (k : ℕ) → IsUsed self.old.rows k → Stays self.old.rows undo k → IsUsed self.new.rows k }
        ensures given_back { IsGivenBack undo self.old.rows self.new.rows }
        ensures clock { self.new.clock ≡ self.old.clock }
    {
        if let Change::PutIn(id) = undo.into_change() {
            let (rows, index, sizes) = (&mut self.rows, &mut self.index, &mut self.sizes);
            free_subtree(self.alloc, rows, index, sizes, &mut self.free, id);
            offer_above(self.alloc, rows, index, &mut self.free, id);
        }
    }

    /// Sets the clock. It changes no node.
    pub fn set_clock(&mut self, now: Stamp)
        ensures { self.new ≡ record self.old { clock = now } }
    {
        self.clock = Clock::at(now);
    }
}
