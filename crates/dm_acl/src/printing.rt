// Access lists are written in the one form: the commands in their order.
ghost use Rattle.std.specs.Prelude.{◌≡◌, ◌++◌, ◌∷◌, [], IfOk, OnOk};
ghost use Rattle.std.specs.List.{flat_map};
ghost use Rattle.dm_acl.specs.declared.values.Servers.TheVariants as servers;
ghost use Rattle.dm_acl.specs.Grammar.{servers_text, printed};
ghost use Rattle.dm_acl.specs.Printing.{with_entry_text};

use crate::values::{Entries, Right, Servers};
use dm_base::{Bytes, Memory};
use std::alloc::Global;

// Appends names, each behind a `+`.
fn put_more_names(out: &mut Bytes, names: &[Bytes]) -> Result<(), Memory>
    ensures { OnOk result (out.new ≡ out.old ++ flat_map (λ name. 43 ∷ name) names.now) }
{
    for name in names {
        out.push(b'+')?;
        out.extend(name.as_slice())?;
    }
    Ok(())
}

fn put_names(out: &mut Bytes, names: &[Bytes]) -> Result<(), Memory>
    ensures { OnOk result (out.new ≡ out.old ++ servers_text (servers.Named names.now)) }
{
    match names.split_first() {
        None => Ok(()),
        Some((first, more)) => {
            out.extend(first.as_slice())?;
            put_more_names(out, more)?;
            Ok(())
        }
    }
}

fn put_servers(out: &mut Bytes, servers: &Servers) -> Result<(), Memory>
    ensures { OnOk result (out.new ≡ out.old ++ servers_text servers.now) }
{
    match servers {
        Servers::Everybody => out.extend(b"*"),
        Servers::Named(names) => put_names(out, names.as_slice()),
    }
}

// Appends an entry, behind a `&` where something stands before it.
fn put_entry(out: &mut Bytes, right: Right, servers: &Option<Servers>) -> Result<(), Memory>
    ensures { OnOk result (out.new ≡ with_entry_text out.old right servers.now) }
{
    match servers {
        None => Ok(()),
        Some(servers) => {
            if !out.is_empty() {
                out.push(b'&')?;
            }
            out.extend(right.head())?;
            put_servers(out, servers)
        }
    }
}

pub(crate) fn put_entries(alloc: Global, entries: &Entries) -> Result<Bytes, Memory>
    ensures { IfOk result (λ text. text ≡ printed entries.now) }
{
    let mut out = Bytes::new(alloc);
    put_entry(&mut out, Right::Add, &entries.add)?;
    put_entry(&mut out, Right::Delete, &entries.delete)?;
    put_entry(&mut out, Right::Exec, &entries.exec)?;
    put_entry(&mut out, Right::Get, &entries.get)?;
    put_entry(&mut out, Right::Replace, &entries.replace)?;
    Ok(out)
}
