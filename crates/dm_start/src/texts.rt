// The tree text, in one walk.
ghost use Rattle.std.specs.Prelude.{◌≡◌, ◌++◌, IfOk, OnOk};
ghost use Rattle.std.specs.Fmt.{decimal};
ghost use Rattle.std.specs.Option.{option_copied};
ghost use Rattle.dm_base.specs.Fields.{hex_text};
ghost use Rattle.dm_tree.specs.Rows.{nodes, node_of, path_of, IsLive};
ghost use Rattle.dm_tree.specs.Views.{shown};
ghost use Rattle.dm_start.specs.TreeText as Spec;

use dm_acl::Acl;
use dm_base::{Bytes, Memory, hex_into};
use dm_decimals::put_decimal;
use dm_tree::{NodeId, Stamp, Tree, View};
use std::alloc::Global;

fn put_number(out: &mut Bytes, number: u16) -> Result<(), Memory>
    ensures { OnOk result (out.new ≡ out.old ++ Spec.spaced (decimal number)) }
{
    out.push(b' ')?;
    put_decimal(out, u64::from(number))
}

fn put_stamp(out: &mut Bytes, version: u8, stamp: Stamp) -> Result<(), Memory>
    ensures { OnOk result (out.new ≡ out.old ++ Spec.stamp_text version stamp) }
{
    if version == 2 {
        out.push(b' ')?;
        out.extend(&stamp.bytes)?;
    }
    Ok(())
}

fn put_acl(alloc: Global, out: &mut Bytes, acl: Option<&Acl>) -> Result<(), Memory>
    ensures { OnOk result (out.new ≡ out.old ++ Spec.spaced (Spec.acl_text (option_copied acl.entry))) }
{
    out.push(b' ')?;
    let Some(acl) = acl else {
        out.push(b'-')?;
        return Ok(());
    };
    match acl.print(alloc) {
        Ok(text) => out.extend(text.as_slice()),
        Err(_) => Err(Memory),
    }
}

#[inline(always)]
fn put_hex(out: &mut Bytes, bytes: &[u8]) -> Result<(), Memory>
    ensures { OnOk result (out.new ≡ out.old ++ Spec.spaced (hex_text bytes.now)) }
{
    out.push(b' ')?;
    hex_into(out, bytes)
}

fn put_common(alloc: Global, out: &mut Bytes, version: u8, view: View) -> Result<(), Memory>
    ensures { OnOk result (out.new ≡ out.old ++ Spec.common_text version (shown view.entry)) }
{
    put_number(out, view.verno)?;
    put_stamp(out, version, view.stamp)?;
    out.extend(if view.permanent { b" p" } else { b" -" })?;
    put_acl(alloc, out, view.acl)?;
    put_hex(out, view.title.as_slice())?;
    Ok(())
}

fn put_type(out: &mut Bytes, view: View) -> Result<(), Memory>
    ensures { OnOk result (out.new ≡ out.old ++ Spec.type_text (shown view.entry)) }
{
    if !view.interior {
        out.push(b' ')?;
        out.extend(view.value.format.as_slice())?;
    }
    put_hex(out, view.value.media.as_slice())
}

/// Appends the line of a node as far as a leaf's value, in version 2 or, where another number is given, 1. `Memory` is
/// the only error; what was appended by then stays.
pub fn put_front(
    alloc: Global,
    out: &mut Bytes,
    tree: &Tree,
    version: u8,
    id: NodeId,
) -> Result<(), Memory>
    requires { IsLive tree.now.rows id }
    ensures { OnOk result (out.new ≡ out.old
        ++ Spec.line_front version (path_of tree.now.rows id) (node_of tree.now.rows id)) }
{
    let view = tree.view(id);
    out.extend(if view.interior { b"node " } else { b"leaf " })?;
    tree.print_path(id, out)?;
    put_common(alloc, out, version, view)?;
    put_type(out, view)
}

fn put_bytes(out: &mut Bytes, view: View) -> Result<(), Memory>
    ensures { OnOk result (out.new ≡ out.old ++ Spec.bytes_text (shown view.entry)) }
{
    if view.interior {
        return Ok(());
    }
    put_hex(out, view.value.bytes.as_slice())
}

// Appends the line of a node.
#[tactic(auto, unfolding(crate::specs::TreeText::node_line))]
fn put_node(
    alloc: Global,
    out: &mut Bytes,
    tree: &Tree,
    version: u8,
    id: NodeId,
) -> Result<(), Memory>
    requires { IsLive tree.now.rows id }
    ensures { OnOk result (out.new ≡ out.old ++ Spec.line_at version (nodes tree.now.rows) (path_of tree.now.rows id)) }
{
    put_front(alloc, out, tree, version, id)?;
    put_bytes(out, tree.view(id))?;
    out.push(b'\n')
}

/// The tree text of version 2, or of version 1 where another number is given: one line for each node, parents first,
/// siblings in byte order of their names, each node's subtree before its next sibling. It goes through the tree once.
pub fn tree_text(alloc: Global, tree: &Tree, version: u8) -> Result<Bytes, Memory>
    ensures { IfOk result (λ text. text ≡ Spec.tree_text version (nodes tree.now.rows)) }
{
    let root = tree.root();
    // Its contract says that the root is there.
    let _ = tree.view(root);
    let mut out = Bytes::new(alloc);
    let mut at = Some(root);
    while let Some(here) = at {
        put_node(alloc, &mut out, tree, version, here)?;
        at = tree.next_below(root, here, false);
    }
    Ok(out)
}
