// New nodes, and where they come.
ghost use Rattle.std.specs.Prelude.{◌≡◌, ◌<◌, ◌++◌, ◌∷◌, [], true, length, IfOk, IsTrue, OnOk, OnErr, MatchOption};
ghost use Rattle.dm_uri.specs.Grammar.{printed};
ghost use Rattle.dm_uri.specs.Names.{is_name, is_within_limits};
ghost use Rattle.dm_tree.specs.Nodes.{IsNewNode, IsValue};
ghost use Rattle.dm_tree.specs.Notes.{TakesEditBack};
ghost use Rattle.dm_tree.specs.Rows.{nodes, path_of};
ghost use Rattle.dm_tree.specs.Views.{shown};
ghost use Rattle.dm_start.specs.Growing as Spec;
ghost use Rattle.dm_start.specs.Laying.{IsSpot, IsNoSpot, Lays, Lengthens};

use dm_base::{Bytes, Memory};
use dm_fields::{BAD_TREE, LineError};
use dm_tree::{NewNode, NodeId, Role, Tree, TreeError, Undo, Value, View};
use dm_uri::{Name, Path, Query, Uri, parse_name, print};
use std::alloc::Global;

/// Where a new node comes.
#[derive(Drop)]
pub struct NodePlace {
    pub parent: NodeId,
    pub name: Name,
}

/// A value of copies of these.
pub(crate) fn value_of(
    alloc: Global,
    format: &[u8],
    media: &[u8],
    bytes: &[u8],
) -> Result<Value, Memory>
    ensures { IfOk result (λ value. value ≡ Spec.value_of format.now media.now bytes.now) }
{
    Ok(Value {
        format: Bytes::of_slice(alloc, format)?,
        media: Bytes::of_slice(alloc, media)?,
        bytes: Bytes::of_slice(alloc, bytes)?,
    })
}

/// A node without access list and title.
pub(crate) fn new_node(
    alloc: Global,
    interior: bool,
    value: Value,
    permanent: bool,
    role: Role,
) -> NewNode
    ensures { result ≡ Spec.new_node interior value permanent role }
{
    NewNode {
        interior,
        value,
        acl: None,
        title: Bytes::new(alloc),
        permanent,
        role,
    }
}

/// An interior node.
pub(crate) fn interior_node(alloc: Global, permanent: bool, role: Role) -> Result<NewNode, Memory>
    ensures { IfOk result (λ node. node ≡ Spec.new_node true Spec.interior_value permanent role) }
{
    let value = value_of(alloc, b"node", b"", b"")?;
    Ok(new_node(alloc, true, value, permanent, role))
}

fn takes_child(permanent: bool, above: View) -> bool
    ensures { result ≡ Spec.takes_child permanent (shown above.entry) }
{
    above.interior && (above.permanent || !permanent)
}

/// Where the node at a path would come. None comes exactly where none may come there, limits and room aside. It takes no
/// memory.
pub fn spot_of(tree: &Tree, path: Path, permanent: bool) -> Option<NodePlace>
    ensures { MatchOption result (IsNoSpot tree.now.rows path permanent) (IsSpot tree.now.rows path permanent) }
{
    // Its contract says that the root is there.
    let _ = tree.root();
    let mut above = path;
    let name = above.pop()?;
    let parent = tree.find(&above)?;
    if !takes_child(permanent, tree.view(parent)) {
        return None;
    }
    if tree.child(parent, &name).is_some() {
        return None;
    }
    Some(NodePlace { parent, name })
}

/// Adds a node at a path. What is answered takes it back.
pub(crate) fn add(tree: &mut Tree, path: Path, node: NewNode) -> Result<Undo, LineError>
    requires within { IsTrue (is_within_limits path) }
    requires node { IsNewNode node }
    ensures added { Lays (Spec.with_one tree.old.clock (nodes tree.old.rows) path node) tree.old tree.new result }
    ensures edit { IfOk result (λ undo. TakesEditBack undo tree.old.rows tree.new.rows) }
    ensures err { OnErr result (tree.new ≡ tree.old) }
{
    let Some(spot) = spot_of(tree, path, node.permanent) else {
        return Err(BAD_TREE);
    };
    match tree.insert(spot.parent, spot.name, node) {
        Ok((_, undo)) => Ok(undo),
        Err(TreeError::Full) => Err(BAD_TREE),
        Err(TreeError::Memory) => Err(LineError::Memory),
    }
}

fn push_name(path: &mut Path, name: Name) -> Result<(), Memory>
    requires few { length path.old < 16 }
    ensures ok { OnOk result (path.new ≡ path.old ++ name ∷ []) }
{
    match path.push(name) {
        Ok(()) => Ok(()),
        Err(_) => Err(Memory),
    }
}

/// An equal path.
pub(crate) fn copy_path(alloc: Global, path: &Path) -> Result<Path, Memory>
    ensures ok { IfOk result (λ copy. copy ≡ path.now) }
{
    let mut copy = Path::new(alloc);
    for name in path.as_slice() {
        push_name(&mut copy, name.copy(alloc)?)?;
    }
    Ok(copy)
}

// The path with a name more.
fn longer(alloc: Global, path: &Path, name: &[u8]) -> Result<Path, Memory>
    requires few { length path.now < 16 }
    requires name { IsTrue (is_name name.now) }
    ensures ok { IfOk result (λ longer. longer ≡ path.now ++ name.now ∷ []) }
{
    let mut longer = copy_path(alloc, path)?;
    match parse_name(alloc, name) {
        Ok(name) => push_name(&mut longer, name)?,
        Err(_) => return Err(Memory),
    }
    Ok(longer)
}

fn text_of(alloc: Global, uri: &Uri) -> Result<Bytes, Memory>
    ensures { IfOk result (λ text. text ≡ printed uri.now) }
{
    match print(alloc, uri) {
        Ok(text) => Ok(Bytes::of_vec(text)),
        Err(_) => Err(Memory),
    }
}

/// The path one name below, where it is within the limits.
pub(crate) fn below(alloc: Global, path: &Path, name: &[u8]) -> Result<Path, LineError>
    requires name { IsTrue (is_name name.now) }
    ensures { Lengthens (path.now ++ name.now ∷ []) result }
{
    if path.as_slice().len() >= 16 {
        return Err(BAD_TREE);
    }
    let uri = Uri {
        path: longer(alloc, path, name)?,
        query: Query::Plain,
    };
    if text_of(alloc, &uri)?.len() > 255 {
        return Err(BAD_TREE);
    }
    Ok(uri.path)
}
