// Copies, each equal to what it copies.
ghost use Rattle.std.specs.Prelude.{◌≡◌, IfOk};

use crate::values::{Entries, Servers};
use dm_base::{Bytes, List, Memory};
use std::alloc::Global;

fn copy_names(alloc: Global, names: &List<Bytes>) -> Result<List<Bytes>, Memory>
    ensures { IfOk result (λ copied. copied ≡ names.now) }
{
    let mut copied = List::new(alloc);
    for name in names.as_slice() {
        copied.push(name.copy(alloc)?)?;
    }
    Ok(copied)
}

fn copy_servers(alloc: Global, servers: &Servers) -> Result<Servers, Memory>
    ensures { IfOk result (λ copied. copied ≡ servers.now) }
{
    match servers {
        Servers::Everybody => Ok(Servers::Everybody),
        Servers::Named(names) => Ok(Servers::Named(copy_names(alloc, names)?)),
    }
}

fn copy_entry(alloc: Global, entry: &Option<Servers>) -> Result<Option<Servers>, Memory>
    ensures { IfOk result (λ copied. copied ≡ entry.now) }
{
    match entry {
        None => Ok(None),
        Some(servers) => Ok(Some(copy_servers(alloc, servers)?)),
    }
}

pub(crate) fn copy_entries(alloc: Global, entries: &Entries) -> Result<Entries, Memory>
    ensures { IfOk result (λ copied. copied ≡ entries.now) }
{
    Ok(Entries {
        add: copy_entry(alloc, &entries.add)?,
        delete: copy_entry(alloc, &entries.delete)?,
        exec: copy_entry(alloc, &entries.exec)?,
        get: copy_entry(alloc, &entries.get)?,
        replace: copy_entry(alloc, &entries.replace)?,
    })
}
