// A tree of many leaves.
ghost use Rattle.std.specs.Prelude.{◌≡◌, ◌≤◌, ◌++◌, ◌∷◌, [], false, length, IfOk, OnOk};
ghost use Rattle.std.specs.FinMap as map;
ghost use Rattle.dm_tree.specs.Nodes.{made, IsNewNode, IsReadAgain};
ghost use Rattle.dm_tree.specs.Rows.{nodes};

use crate::fault::Fault;
use crate::layout::Layout;
use crate::nodes::{base_name, group_name, leaf_name, new_interior, new_leaf};
use dm_acl::Acl;
use dm_tree::{NewNode, Tree};
use dm_uri::{Name, Path};
use std::alloc::Global;

// The path of a group, or of what stands above them all where none is given.
fn path_of(alloc: Global, group: Option<u32>) -> Result<Path, Fault>
    ensures { IfOk result (λ path. length path ≤ 2) }
{
    let mut path = Path::new(alloc);
    path.push(base_name(alloc)?)?;
    if let Some(group) = group {
        path.push(group_name(alloc, group)?)?;
    }
    Ok(path)
}

/// The paths of these leaves.
pub fn leaf_paths(alloc: Global, layout: Layout, leaves: &[u32]) -> Result<Vec<Path>, Fault> {
    let mut paths = Vec::new(alloc);
    for leaf in leaves {
        let mut path = path_of(alloc, Some(layout.group_of(*leaf)))?;
        path.push(leaf_name(alloc, *leaf)?)?;
        paths.push(path)?;
    }
    Ok(paths)
}

// Adds a node below that of a path of at most two names: then the limits are kept, however long the names are.
fn put(tree: &mut Tree, above: &Path, name: Name, new: NewNode) -> Result<(), Fault>
    requires may { IsNewNode new }
    requires dynamic { new.permanent ≡ false }
    ensures { OnOk result (nodes tree.new.rows
        ≡ map.insert (nodes tree.old.rows) (above.now ++ name ∷ []) (made tree.old.clock new)) }
{
    // Its contract says that the name keeps to the form and the limit.
    let _ = name.as_slice();
    if above.as_slice().len() > 2 {
        return Err(Fault::Lost);
    }
    let Some(parent) = tree.find(above) else {
        return Err(Fault::Lost);
    };
    if !tree.view(parent).interior || tree.child(parent, &name).is_some() {
        return Err(Fault::Lost);
    }
    match tree.insert(parent, name, new) {
        Ok(_) => Ok(()),
        Err(error) => Err(Fault::from(error)),
    }
}

fn root_acl(alloc: Global) -> Result<Acl, Fault>
    ensures { IfOk result (λ acl. IsReadAgain acl) }
{
    match Acl::parse(alloc, b"Add=*&Delete=*&Get=*&Replace=*") {
        Ok(acl) => match acl.print(alloc) {
            Ok(text) if text.len() <= 4_096 => Ok(acl),
            Ok(_) => Err(Fault::Lost),
            Err(_) => Err(Fault::Memory),
        },
        Err(_) => Err(Fault::Memory),
    }
}

// Adds the groups, and gives their paths.
fn put_groups(alloc: Global, tree: &mut Tree, groups: u32) -> Result<Vec<Path>, Fault> {
    let above = path_of(alloc, None)?;
    let mut paths = Vec::new(alloc);
    for group in 0..groups {
        put(
            tree,
            &above,
            group_name(alloc, group)?,
            new_interior(alloc)?,
        )?;
        paths.push(path_of(alloc, Some(group))?)?;
    }
    Ok(paths)
}

fn put_leaves(
    alloc: Global,
    tree: &mut Tree,
    layout: Layout,
    order: &[u32],
    groups: &[Path],
) -> Result<(), Fault> {
    for leaf in order {
        let Some(above) = groups.get(layout.group_of(*leaf) as usize) else {
            return Err(Fault::Lost);
        };
        put(
            tree,
            above,
            leaf_name(alloc, *leaf)?,
            new_leaf(alloc, *leaf)?,
        )?;
    }
    Ok(())
}

/// A tree of these leaves, which come in this order. Each time the node above is found from the root.
pub fn build(alloc: Global, layout: Layout, order: &[u32]) -> Result<Tree, Fault> {
    let mut tree = Tree::new(alloc, root_acl(alloc)?)?;
    let root = Path::new(alloc);
    put(&mut tree, &root, base_name(alloc)?, new_interior(alloc)?)?;
    let groups = put_groups(alloc, &mut tree, layout.groups())?;
    put_leaves(alloc, &mut tree, layout, order, groups.as_slice())?;
    Ok(tree)
}
