// The tree before the first line that tells of it.
ghost use Rattle.std.specs.Prelude.{◌≡◌, ◌∷◌, [], true, IfOk, IsTrue, codes};
ghost use Rattle.dm_uri.specs.Names.{is_name};
ghost use Rattle.dm_tree.specs.declared.nodes.Role.TheVariants.{Plain};
ghost use Rattle.dm_tree.specs.Devices.{device_path};
ghost use Rattle.dm_tree.specs.Rows.{nodes, IsNoneParked};
ghost use Rattle.dm_start.specs.Growing as Spec;
ghost use Rattle.dm_start.specs.Laying.{Lays, Lengthens, SaysAs};

use crate::heads::DeviceInfo;
use crate::new_nodes::{add, below, interior_node, new_node, value_of};
use crate::shorts::ShortText;
use dm_acl::Acl;
use dm_acl::laws::lists_that_are_read_are_short;
use dm_base::Memory;
use dm_fields::LineError;
use dm_tree::{Role, Stamp, Tree};
use dm_uri::Path;
use std::alloc::Global;

// The root alone.
fn bare_tree(alloc: Global, clock: Stamp) -> Result<Tree, Memory>
    ensures nodes { IfOk result (λ tree. nodes tree.rows ≡ Spec.bare_tree clock) }
    ensures parked { IfOk result (λ tree. IsNoneParked tree.rows) }
    ensures clock { IfOk result (λ tree. tree.clock ≡ clock) }
{
    lists_that_are_read_are_short();
    let Ok(acl) = Acl::parse(alloc, b"Add=*&Get=*") else {
        return Err(Memory);
    };
    let mut tree = Tree::new(alloc, acl)?;
    tree.set_clock(clock);
    let root = tree.root();
    tree.reload(root, 0, clock);
    Ok(tree)
}

fn device_node(alloc: Global) -> Result<Path, LineError>
    ensures { Lengthens (codes "DevInfo" ∷ []) result }
{
    below(alloc, &Path::new(alloc), b"DevInfo")
}

fn add_device_node(alloc: Global, tree: &mut Tree) -> Result<(), LineError>
    ensures { Lays (Spec.with_one tree.old.clock (nodes tree.old.rows) (codes "DevInfo" ∷ [])
        (Spec.new_node true Spec.interior_value true Plain)) tree.old tree.new result }
{
    let path = device_node(alloc)?;
    let node = interior_node(alloc, true, Role::Plain)?;
    add(tree, path, node)?;
    Ok(())
}

fn add_device_leaf(
    alloc: Global,
    tree: &mut Tree,
    name: &[u8],
    text: &ShortText,
) -> Result<(), LineError>
    requires name { IsTrue (is_name name.now) }
    ensures { Lays (Spec.with_one tree.old.clock (nodes tree.old.rows) (device_path name.now)
        (Spec.new_device_leaf text.now)) tree.old tree.new result }
{
    let path = below(alloc, &device_node(alloc)?, name)?;
    let value = value_of(alloc, b"chr", b"text/plain", text.as_slice())?;
    let node = new_node(alloc, false, value, true, Role::ReadOnly);
    add(tree, path, node)?;
    Ok(())
}

/// The tree with the root and the device's information, each node with the clock as its stamp.
pub(crate) fn start_tree(
    alloc: Global,
    clock: Stamp,
    device: &DeviceInfo,
) -> Result<Tree, LineError>
    ensures nodes { SaysAs (λ tree. nodes tree.rows)
        (Spec.with_all clock (Spec.bare_tree clock) (Spec.device_part device.now)) result }
    ensures parked { IfOk result (λ tree. IsNoneParked tree.rows) }
    ensures clock { IfOk result (λ tree. tree.clock ≡ clock) }
{
    let mut tree = bare_tree(alloc, clock)?;
    add_device_node(alloc, &mut tree)?;
    add_device_leaf(alloc, &mut tree, b"DevId", &device.dev_id)?;
    add_device_leaf(alloc, &mut tree, b"Man", &device.man)?;
    add_device_leaf(alloc, &mut tree, b"Mod", &device.model)?;
    add_device_leaf(alloc, &mut tree, b"DmV", &device.dm_v)?;
    add_device_leaf(alloc, &mut tree, b"Lang", &device.lang)?;
    Ok(tree)
}
