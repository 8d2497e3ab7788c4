// The tree, and what is read of it.
ghost use Rattle.std.specs.Prelude.{◌≡◌, ◌<◌, ◌≤◌, ◌++◌, ◌∷◌, [], Some, None, if◌then◌else◌, IfOk, IfSome, OnOk};
ghost use Rattle.std.specs.Prelude.{option_map, option_and_then};
ghost use Rattle.std.specs.Option.{option_copied};
ghost use Rattle.std.specs.FinMap as map;
ghost use Rattle.dm_uri.specs.Names.{printed_path};
ghost use Rattle.dm_tree.specs.Nodes.{first_stamp, root_node, above, last_name, tree_order, Nodes, IsReadAgain};
ghost use Rattle.dm_tree.specs.Nodes.{IsStamp, IsWellFormed};
ghost use Rattle.dm_tree.specs.Rows.{nodes, ids, node_of, path_of, IsLive, IsTree, IsNoneParked};
ghost use Rattle.dm_tree.specs.Rights.{effective_path, allows};
ghost use Rattle.dm_tree.specs.Views.{shown};

use crate::children::Children;
use crate::clock::Clock;
use crate::nodes::{Node, Role, Stamp, Value, View};
use crate::rows::{NodeId, Row};
use crate::walks::{child_row, deciding_row, found_row, print_up, put_path, row_allows};
use dm_acl::{Acl, Right};
use dm_base::{Bytes, Memory};
use dm_uri::{Name, Path, parse_name};
use std::alloc::Global;
use std::marker::Model;

const FIRST_STAMP: Stamp = Stamp {
    bytes: *b"00000000T000000Z",
};

/// The management tree, and a clock. A tree has a root; every other node has a name and stands below an interior node.
/// At most 65,536 nodes stand in it, at most 16 names deep; the written form of each path has at most 255 bytes.
///
/// A node has a number, which it keeps as long as it stays. The condition on each number that is handed to a call is
/// that its node stands in the tree.
#[derive(Drop)]
pub struct Tree {
    pub(crate) alloc: Global,
    pub(crate) rows: Vec<Row>,
    /// The children of each row, and how many rows lie at and below it.
    pub(crate) index: Vec<Children>,
    pub(crate) sizes: Vec<u32>,
    /// The row that a new node may take, or 0. The next one stands with its children.
    pub(crate) free: u32,
    pub(crate) clock: Clock,
}

impl Model for Tree {
    ghost use Rattle.dm_tree.specs.Rows.{Tree as Kept};
    ghost use Rattle.dm_tree.specs.Index.{IsKept};

    ghost Value = { Kept };

    ghost view = { λ t. record { rows = t.rows.items; clock = t.clock } };

    ghost invariant = { λ t. IsKept t.rows.items t.index.items t.sizes.items };
}

fn root_of(alloc: Global, acl: Acl) -> Result<Node, Memory>
    ensures { IfOk result (λ node. node ≡ root_node acl) }
{
    let format = Bytes::of_slice(alloc, b"node")?;
    Ok(Node {
        interior: true,
        value: Value {
            format,
            media: Bytes::new(alloc),
            bytes: Bytes::new(alloc),
        },
        acl: Some(acl),
        title: Bytes::new(alloc),
        verno: 0,
        stamp: FIRST_STAMP,
        permanent: true,
        role: Role::Plain,
    })
}

impl Tree {
    /// A tree that is its root, with this access list. Its clock is `00000000T000000Z`.
    pub fn new(alloc: Global, root_acl: Acl) -> Result<Tree, Memory>
        requires { IsReadAgain root_acl }
        ensures nodes { IfOk result (λ tree.
            nodes tree.rows ≡ map.insert map.empty [] (root_node root_acl)) }
        ensures parked { IfOk result (λ tree. IsNoneParked tree.rows) }
        ensures clock { IfOk result (λ tree. tree.clock ≡ first_stamp) }
    {
        // No one sees the root's name.
        let name = match parse_name(alloc, b"root") {
            Ok(name) => name,
            Err(_) => return Err(Memory),
        };
        let node = root_of(alloc, root_acl)?;
        let mut rows = Vec::new(alloc);
        rows.push(Row {
            parent: 0,
            depth: 0,
            attached: false,
            given_up: false,
            name,
            node,
        })?;
        let mut index = Vec::new(alloc);
        index.push(Children::new(alloc))?;
        let sizes = Vec::from_slice(alloc, &[1])?;
        Ok(Tree {
            alloc,
            rows,
            index,
            sizes,
            free: 0,
            clock: Clock::at(FIRST_STAMP),
        })
    }

    /// The number of the node at a path. None comes exactly where no node is there.
    pub fn find(&self, path: &Path) -> Option<NodeId>
        ensures found { result ≡ map.get (ids self.now.rows) path.now }
        ensures node { map.get (nodes self.now.rows) path.now ≡ option_map (node_of self.now.rows) result }
        ensures live { IfSome result (λ id.
            IsLive self.now.rows id × (path_of self.now.rows id ≡ path.now)) }
    {
        NodeId::of_row(found_row(&self.rows, &self.index, path.as_slice()))
    }

    /// The number of the root. Every tree keeps to the limits and is in order.
    pub fn root(&self) -> NodeId
        ensures id { Some result ≡ map.get (ids self.now.rows) [] }
        ensures live { IsLive self.now.rows result × (path_of self.now.rows result ≡ []) }
        ensures well_formed { IsWellFormed (nodes self.now.rows) }
        ensures sound { IsTree self.now.rows }
    {
        let _ = &self.rows;
        NodeId::of(0)
    }

    /// The child of this name. None comes exactly where no such node is there.
    pub fn child(&self, id: NodeId, name: &Name) -> Option<NodeId>
        requires { IsLive self.now.rows id }
        ensures found { result ≡ map.get (ids self.now.rows) (path_of self.now.rows id ++ name.now ∷ []) }
        ensures node { map.get (nodes self.now.rows) (path_of self.now.rows id ++ name.now ∷ [])
            ≡ option_map (node_of self.now.rows) result }
        ensures live { IfSome result (λ child. IsLive self.now.rows child
            × (path_of self.now.rows child ≡ path_of self.now.rows id ++ name.now ∷ [])) }
    {
        NodeId::of_row(child_row(&self.rows, &self.index, id.row(), name))
    }

    /// The node above. None comes exactly at the root.
    pub fn parent(&self, id: NodeId) -> Option<NodeId>
        requires { IsLive self.now.rows id }
        ensures found { result ≡ option_and_then (λ _. map.get (ids self.now.rows) (above (path_of self.now.rows id)))
            (last_name (path_of self.now.rows id)) }
        ensures live { IfSome result (λ parent. IsLive self.now.rows parent
            × (path_of self.now.rows parent ≡ above (path_of self.now.rows id))) }
    {
        if id.row() == 0 {
            return None;
        }
        Some(NodeId::of(self.rows[id.row() as usize].parent))
    }

    /// How many nodes stand in the tree, the root among them.
    pub fn count(&self) -> u32
        ensures { result ≡ map.len (nodes self.now.rows) }
    {
        self.sizes[0]
    }

    /// The node as it stands.
    pub fn view(&self, id: NodeId) -> View
        requires { IsLive self.now.rows id }
        ensures node { shown result ≡ node_of self.now.rows id }
        ensures name { option_copied result.name ≡ last_name (path_of self.now.rows id) }
        ensures there { map.get (nodes self.now.rows) (path_of self.now.rows id) ≡ Some (node_of self.now.rows id) }
    {
        let row = &self.rows[id.row() as usize];
        View {
            interior: row.node.interior,
            value: &row.node.value,
            acl: row.node.acl.as_ref(),
            title: &row.node.title,
            permanent: row.node.permanent,
            role: row.node.role,
            verno: row.node.verno,
            stamp: row.node.stamp,
            name: if id.row() == 0 { None } else { Some(&row.name) },
        }
    }

    /// The path of a node.
    pub fn path(&self, id: NodeId) -> Result<Path, Memory>
        requires { IsLive self.now.rows id }
        ensures { IfOk result (λ path. path ≡ path_of self.now.rows id) }
    {
        let mut path = Path::new(self.alloc);
        let depth = self.rows[id.row() as usize].depth;
        put_path(self.alloc, &self.rows, id.row(), depth, &mut path)?;
        Ok(path)
    }

    /// Appends the written form of a node's path: `.` for the root, else `./` and the names with a `/` between each
    /// two. `Memory` is the only error; what was appended by then stays.
    pub fn print_path(&self, id: NodeId, out: &mut Bytes) -> Result<(), Memory>
        requires { IsLive self.now.rows id }
        ensures { OnOk result (out.new ≡ out.old ++ printed_path (path_of self.now.rows id)) }
    {
        print_up(
            &self.rows,
            id.row(),
            self.rows[id.row() as usize].depth,
            out,
        )
    }

    /// The node whose access list decides on a right: the nearest upwards, itself first, whose list names it. None
    /// comes exactly where none does.
    pub fn effective(&self, id: NodeId, right: Right) -> Option<NodeId>
        requires { IsLive self.now.rows id }
        ensures found { result ≡ option_and_then (map.get (ids self.now.rows))
            (effective_path (nodes self.now.rows) (path_of self.now.rows id) right) }
        ensures live { IfSome result (λ decides. IsLive self.now.rows decides
            × (effective_path (nodes self.now.rows) (path_of self.now.rows id) right
            ≡ Some (path_of self.now.rows decides))) }
    {
        NodeId::of_row(deciding_row(&self.rows, id.row(), right))
    }

    /// Whether the entry in force for a right names everybody or the server.
    #[inline(always)]
    pub fn allows(&self, id: NodeId, server: &[u8], right: Right) -> bool
        requires { IsLive self.now.rows id }
        ensures { result ≡ allows (nodes self.now.rows) (path_of self.now.rows id) server.now right }
    {
        match deciding_row(&self.rows, id.row(), right) {
            None => false,
            Some(row) => row_allows(&self.rows[row as usize], server, right),
        }
    }

    /// The stamp that was set last.
    pub fn clock(&self) -> Stamp
        ensures value { result ≡ self.now.clock }
        ensures kept { IsStamp result }
    {
        self.clock.stamp()
    }
}
