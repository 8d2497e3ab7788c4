// The first package of a session.
ghost use Rattle.std.specs.Prelude.{◌≡◌, ◌∷◌, ◌++◌, [], map, Ok as Good, Some, IfOk, OnOk};
ghost use Rattle.dm_uri.specs.Reading.{parse_name_of};
ghost use Rattle.dm_tree.specs.Rows.{nodes};
ghost use Rattle.dm_tree.specs.Devices.{IsUpdateInOrder, device_leaves};
ghost use Rattle.dm_atomic.specs.Made.{source_item as source_of};
ghost use Rattle.dm_machine.specs.Opening as Spec;

use crate::device::{device_path, printed, update_uri, value_at};
use dm_base::{Boxed, Bytes, List, Memory};
use dm_ends::alert;
use dm_machine::{Initiator, UpdateResult};
use dm_tree::Tree;
use std::alloc::Global;
use syncml_types::copies::copy_bytes;
use syncml_types::{Command, Item, Loc, Meta, Plain, Verb};

fn kind_code(kind: Initiator) -> u32
    ensures { result ≡ Spec.kind_code kind }
{
    match kind {
        Initiator::ByServer => 1200,
        Initiator::ByClient => 1201,
    }
}

fn meta_of(alloc: Global, format: &[u8], media: &[u8]) -> Result<Boxed<Meta>, Memory>
    ensures { IfOk result (λ meta. meta ≡ Spec.typed_meta format.now media.now) }
{
    let meta = Meta {
        format: Some(Bytes::of_slice(alloc, format)?),
        media: Some(Bytes::of_slice(alloc, media)?),
        ..Meta::empty()
    };
    Boxed::new(alloc, meta)
}

fn source_item(uri: Bytes, meta: Boxed<Meta>, value: Bytes) -> Item
    ensures { result ≡ source_of uri (Some meta) (Some value) }
{
    Item {
        target: None,
        source: Some(Loc { uri, name: None }),
        meta: Some(meta),
        value: Some(value),
        more: false,
    }
}

#[tactic(auto, using(dm_machine::proofs::OwnPackages::result_digits))]
fn result_item(alloc: Global, node: &Bytes, ok: bool) -> Result<Item, Memory>
    ensures { IfOk result (λ item. item ≡ Spec.result_item node.now ok) }
{
    let code: &[u8] = if ok { b"200" } else { b"410" };
    let meta = meta_of(
        alloc,
        b"chr",
        b"org.openmobilealliance.dm.firmwareupdate.update",
    )?;
    Ok(source_item(node.copy(alloc)?, meta, Bytes::of_slice(alloc, code)?))
}

fn result_alert(alloc: Global, node: &Bytes, update: &UpdateResult) -> Result<Command, Memory>
    ensures { IfOk result (λ made. made ≡ Spec.result_alert node.now update.now) }
{
    let mut items = List::new(alloc);
    items.push(result_item(alloc, node, update.ok)?)?;
    let correlator = copy_bytes(alloc, &update.correlator)?;
    Ok(alert(1226, correlator, items))
}

fn put_each(
    alloc: Global,
    node: &Bytes,
    results: &[UpdateResult],
    out: &mut List<Command>,
) -> Result<(), Memory>
    ensures { OnOk result (out.new ≡ out.old ++ map (Spec.result_alert node.now) results.now) }
{
    for update in results {
        out.push(result_alert(alloc, node, update)?)?;
    }
    Ok(())
}

// The results of updates that weren't told yet. Only where there is one is the update's node looked for, through the
// tree.
fn put_results(
    alloc: Global,
    tree: &Tree,
    results: &List<UpdateResult>,
    out: &mut List<Command>,
) -> Result<(), Memory>
    requires { IsUpdateInOrder (nodes tree.now.rows) }
    ensures { OnOk result
        (out.new ≡ out.old ++ map (Spec.result_alert (Spec.update_uri (nodes tree.now.rows))) results.now) }
{
    if results.is_empty() {
        return Ok(());
    }
    let node = update_uri(alloc, tree)?;
    put_each(alloc, &node, results.as_slice(), out)?;
    Ok(())
}

fn put_device_item(
    alloc: Global,
    tree: &Tree,
    name: &[u8],
    items: &mut List<Item>,
) -> Result<(), Memory>
    requires { parse_name_of name.now ≡ Good name.now }
    ensures { OnOk result (items.new ≡ items.old ++ Spec.device_item (nodes tree.now.rows) name.now ∷ []) }
{
    let path = device_path(alloc, name)?;
    let value = value_at(alloc, tree, &path)?;
    let meta = meta_of(alloc, b"chr", b"text/plain")?;
    items.push(source_item(printed(alloc, path)?, meta, value))?;
    Ok(())
}

// The five leaves that the device tells of itself.
#[tactic(auto, unfolding(dm_uri::specs::Reading::parse_name_of))]
fn device_items(alloc: Global, tree: &Tree) -> Result<List<Item>, Memory>
    ensures { IfOk result (λ items. items ≡ map (Spec.device_item (nodes tree.now.rows)) device_leaves) }
{
    let mut items = List::new(alloc);
    put_device_item(alloc, tree, b"DevId", &mut items)?;
    put_device_item(alloc, tree, b"Man", &mut items)?;
    put_device_item(alloc, tree, b"Mod", &mut items)?;
    put_device_item(alloc, tree, b"DmV", &mut items)?;
    put_device_item(alloc, tree, b"Lang", &mut items)?;
    Ok(items)
}

fn device_told(alloc: Global, tree: &Tree) -> Result<Command, Memory>
    ensures { IfOk result (λ told. told ≡ Spec.device_told (nodes tree.now.rows)) }
{
    Ok(Command::Plain(Plain {
        verb: Verb::Replace,
        id: 0,
        no_resp: false,
        meta: None,
        correlator: None,
        items: device_items(alloc, tree)?,
    }))
}

/// The commands of a session's first package: its Alert, the results of updates that weren't told yet, and what the
/// device is.
pub(crate) fn opening(
    alloc: Global,
    tree: &Tree,
    kind: Initiator,
    results: &List<UpdateResult>,
) -> Result<List<Command>, Memory>
    requires { IsUpdateInOrder (nodes tree.now.rows) }
    ensures { IfOk result (λ commands. commands ≡ Spec.opening kind results.now (nodes tree.now.rows)) }
{
    let mut commands = List::new(alloc);
    commands.push(alert(kind_code(kind), None, List::new(alloc)))?;
    put_results(alloc, tree, results, &mut commands)?;
    commands.push(device_told(alloc, tree)?)?;
    Ok(commands)
}
