// What the tree tells of the device.
ghost use Rattle.std.specs.Prelude.{◌≡◌, ◌<◌, ◌++◌, ◌∷◌, [], length, Ok as Good, IfOk};
ghost use Rattle.dm_uri.specs.Names.{printed_path};
ghost use Rattle.dm_uri.specs.Reading.{parse_name_of};
ghost use Rattle.dm_tree.specs.Rows.{nodes};
ghost use Rattle.dm_tree.specs.Devices.{IsUpdateInOrder, device_path as path_of_leaf, device_id as id_of};
ghost use Rattle.dm_tree.specs.Devices.{value_at as value_in};
ghost use Rattle.dm_machine.specs.Opening.{update_uri as uri_of_update};

use dm_base::{Bytes, Memory};
use dm_tree::Tree;
use dm_uri::{Path, Query, Uri, parse_name, print};
use std::alloc::Global;
use std::marker::Model;

fn push_name(alloc: Global, name: &[u8], path: &mut Path) -> Result<(), Memory>
    requires name { parse_name_of name.now ≡ Good name.now }
    requires room { length path.old < 16 }
    ensures { IfOk result (λ u. path.new ≡ path.old ++ name.now ∷ []) }
{
    let Ok(name) = parse_name(alloc, name) else {
        return Err(Memory);
    };
    match path.push(name) {
        Ok(()) => Ok(()),
        Err(_) => Err(Memory),
    }
}

/// The path of a leaf of `./DevInfo`.
#[tactic(auto, unfolding(dm_uri::specs::Reading::parse_name_of))]
pub(crate) fn device_path(alloc: Global, name: &[u8]) -> Result<Path, Memory>
    requires { parse_name_of name.now ≡ Good name.now }
    ensures { IfOk result (λ path. path ≡ path_of_leaf name.now) }
{
    let mut path = Path::new(alloc);
    push_name(alloc, b"DevInfo", &mut path)?;
    push_name(alloc, name, &mut path)?;
    Ok(path)
}

/// The bytes of the leaf at a path; none where none is there.
pub(crate) fn value_at(alloc: Global, tree: &Tree, path: &Path) -> Result<Bytes, Memory>
    ensures { IfOk result (λ value. value ≡ value_in (nodes tree.now.rows) path.now) }
{
    match tree.find(path) {
        None => Ok(Bytes::new(alloc)),
        Some(id) => tree.view(id).value.bytes.copy(alloc),
    }
}

/// Where the device's id stands. Its path is made once, and not for each header.
#[derive(Drop)]
pub(crate) struct IdPlace {
    path: Path,
}

impl Model for IdPlace {
    ghost use Rattle.std.specs.Prelude.{◌≡◌, List, ℕ, codes};
    ghost use Rattle.dm_tree.specs.Devices.{device_path};

    ghost Value = { List (List ℕ) };

    ghost view = { λ p. p.path };

    ghost invariant = { λ p. p.path ≡ device_path (codes "DevId") };
}

impl IdPlace {
    #[tactic(auto, unfolding(dm_uri::specs::Reading::parse_name_of))]
    pub(crate) fn new(alloc: Global) -> Result<IdPlace, Memory> {
        Ok(IdPlace {
            path: device_path(alloc, b"DevId")?,
        })
    }

    /// The device's id.
    pub(crate) fn id(&self, alloc: Global, tree: &Tree) -> Result<Bytes, Memory>
        ensures { IfOk result (λ id. id ≡ id_of (nodes tree.now.rows)) }
    {
        value_at(alloc, tree, &self.path)
    }
}

/// The written form of a path.
pub(crate) fn printed(alloc: Global, path: Path) -> Result<Bytes, Memory>
    ensures { IfOk result (λ text. text ≡ printed_path path) }
{
    let uri = Uri {
        path,
        query: Query::Plain,
    };
    match print(alloc, &uri) {
        Ok(text) => Ok(Bytes::of_vec(text)),
        Err(_) => Err(Memory),
    }
}

/// The written path of the update node; none where the tree has none.
#[tactic(auto, using(crate::proofs::Updates::no_update_uri))]
pub(crate) fn update_uri(alloc: Global, tree: &Tree) -> Result<Bytes, Memory>
    requires { IsUpdateInOrder (nodes tree.now.rows) }
    ensures { IfOk result (λ uri. uri ≡ uri_of_update (nodes tree.now.rows)) }
{
    match tree.update_ids() {
        None => Ok(Bytes::new(alloc)),
        Some(found) => printed(alloc, tree.path(found.update)?),
    }
}
