// Whether two access lists are one.
ghost use Rattle.std.specs.Prelude.{◌≡◌};
ghost use Rattle.dm_acl.specs.Same.{same_names, same_servers, same_entry, same_entries};

use crate::values::{Entries, Servers};
use dm_base::Bytes;

fn same_names(names: &[Bytes], others: &[Bytes]) -> bool
    ensures { result ≡ same_names names.now others.now }
{
    match (names.split_first(), others.split_first()) {
        (None, None) => true,
        (Some((name, names)), Some((other, others))) => {
            name.as_slice() == other.as_slice() && same_names(names, others)
        }
        (None, Some(_)) => false,
        (Some(_), None) => false,
    }
}

fn same_servers(servers: &Servers, others: &Servers) -> bool
    ensures { result ≡ same_servers servers.now others.now }
{
    match (servers, others) {
        (Servers::Everybody, Servers::Everybody) => true,
        (Servers::Named(names), Servers::Named(others)) => {
            same_names(names.as_slice(), others.as_slice())
        }
        _ => false,
    }
}

fn same_entry(entry: &Option<Servers>, other: &Option<Servers>) -> bool
    ensures { result ≡ same_entry entry.now other.now }
{
    match (entry, other) {
        (None, None) => true,
        (Some(servers), Some(others)) => same_servers(servers, others),
        _ => false,
    }
}

pub(crate) fn same_entries(entries: &Entries, others: &Entries) -> bool
    ensures { result ≡ same_entries entries.now others.now }
{
    same_entry(&entries.add, &others.add)
        && same_entry(&entries.delete, &others.delete)
        && same_entry(&entries.exec, &others.exec)
        && same_entry(&entries.get, &others.get)
        && same_entry(&entries.replace, &others.replace)
}
