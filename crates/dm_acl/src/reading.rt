// Texts are read entry by entry.
ghost use Rattle.std.specs.Prelude.{◌≡◌, ◌≤◌, length, bytes_eq, IsTrue, IsOk, IfSome, IfOk, OnOk};
ghost use Rattle.std.specs.List.{list_all, list_any};
ghost use Rattle.dm_acl.specs.Grammar.{is_name_byte, is_server_name, head_of, name_added, unrepeated, no_entries};
ghost use Rattle.dm_acl.specs.Grammar.{has_entry};
ghost use Rattle.dm_acl.specs.Reading.{names_in, parts_in, servers_in, begins_entry, right_in, entry_in, put_new};
ghost use Rattle.dm_acl.specs.Reading.{after_part};
ghost use Rattle.dm_acl.specs.Reading.{after_parts, Answers, Leaves};

use crate::values::{AclEntry, AclError, Entries, Right, Servers};
use dm_base::{Bytes, List, Memory};
use std::alloc::Global;

fn is_name_byte(b: u8) -> bool
    ensures { result ≡ is_name_byte b }
{
    b'!' <= b && b <= b'~' && b != b'&' && b != b'+' && b != b'=' && b != b'*'
}

fn all_name_bytes(name: &[u8]) -> bool
    ensures { result ≡ list_all is_name_byte name.now }
{
    name.iter().all(|b| is_name_byte(*b))
}

fn is_server_name(name: &[u8]) -> bool
    ensures { result ≡ is_server_name name.now }
{
    !name.is_empty() && name.len() <= 64 && all_name_bytes(name)
}

pub(crate) fn are_server_names(list: &[u8]) -> bool
    ensures { result ≡ list_all is_server_name (names_in list.now) }
{
    list.split(|b| *b == b'+').all(is_server_name)
}

// Whether a name is among others.
pub(crate) fn is_among(names: &[Bytes], name: &[u8]) -> bool
    ensures { result ≡ list_any (λ other. bytes_eq other name.now) names.now }
{
    names.iter().any(|other| other.as_slice() == name)
}

// Adds a name at the end, where it isn't among the names.
fn add_name(alloc: Global, names: &mut List<Bytes>, name: &[u8]) -> Result<(), Memory>
    ensures { OnOk result (names.new ≡ name_added names.old name.now) }
{
    if is_among(names.as_slice(), name) {
        return Ok(());
    }
    names.push(Bytes::of_slice(alloc, name)?)
}

// The names of a list, without repeats after the first.
fn read_names(alloc: Global, list: &[u8]) -> Result<List<Bytes>, Memory>
    ensures { IfOk result (λ names. names ≡ unrepeated (names_in list.now)) }
{
    let mut names = List::new(alloc);
    for name in list.split(|b| *b == b'+') {
        add_name(alloc, &mut names, name)?;
    }
    Ok(names)
}

// Whom a list allows. None comes exactly where a name is bad.
fn read_servers(alloc: Global, list: &[u8]) -> Result<Option<Servers>, Memory>
    ensures { IfOk result (λ servers. servers ≡ servers_in list.now) }
{
    if list.is_empty() {
        return Ok(Some(Servers::Named(List::new(alloc))));
    }
    if list == b"*".as_slice() {
        return Ok(Some(Servers::Everybody));
    }
    if !are_server_names(list) {
        return Ok(None);
    }
    Ok(Some(Servers::Named(read_names(alloc, list)?)))
}

fn begins(part: &[u8], right: Right) -> bool
    ensures value { result ≡ begins_entry part.now right }
    ensures fits { IsTrue result → length (head_of right) ≤ length part.now }
{
    part.starts_with(right.head())
}

// The command with which a part begins.
pub(crate) fn right_in(part: &[u8]) -> Option<Right>
    ensures value { result ≡ right_in part.now }
    ensures fits { IfSome result (λ right. length (head_of right) ≤ length part.now) }
{
    if begins(part, Right::Add) {
        return Some(Right::Add);
    }
    if begins(part, Right::Delete) {
        return Some(Right::Delete);
    }
    if begins(part, Right::Exec) {
        return Some(Right::Exec);
    }
    if begins(part, Right::Get) {
        return Some(Right::Get);
    }
    if begins(part, Right::Replace) {
        return Some(Right::Replace);
    }
    None
}

// The entry that a part of a text is. None comes exactly where it is bad.
fn read_entry(alloc: Global, part: &[u8]) -> Result<Option<AclEntry>, Memory>
    ensures { IfOk result (λ entry. entry ≡ entry_in part.now) }
{
    let Some(right) = right_in(part) else {
        return Ok(None);
    };
    let (_, list) = part.split_at(right.head().len());
    match read_servers(alloc, list)? {
        None => Ok(None),
        Some(servers) => Ok(Some(AclEntry { right, servers })),
    }
}

// Puts an entry, where its command has none yet.
fn put_new(entries: &mut Entries, at: usize, entry: AclEntry) -> Result<(), AclError>
    ensures { Leaves result entries.new (put_new (has_entry entries.old entry.right) entries.old at entry) }
{
    if entries.of(entry.right).is_some() {
        return Err(AclError::Malformed(at));
    }
    entries.put(entry);
    Ok(())
}

// Puts the entry that a part is.
#[tactic(auto, unfolding(crate::specs::Reading::after_part))]
fn read_part(alloc: Global, entries: &mut Entries, at: usize, part: &[u8]) -> Result<(), AclError>
    ensures { Leaves result entries.new (after_part entries.old at part.now) }
{
    match read_entry(alloc, part) {
        Ok(Some(entry)) => put_new(entries, at, entry),
        Ok(None) => Err(AclError::Malformed(at)),
        Err(_) => Err(AclError::Memory),
    }
}

// The entries of a text of at most 4,096 bytes that has no fault.
pub(crate) fn read_parts(alloc: Global, text: &[u8]) -> Result<Entries, AclError>
    requires short { length text.now ≤ 4096 }
    requires faultless { IsOk (after_parts no_entries 0 (parts_in text.now)) }
    ensures { Answers result (after_parts no_entries 0 (parts_in text.now)) }
{
    let mut entries = Entries::none();
    let mut at = 0;
    for part in text.split(|b| *b == b'&') {
        match read_part(alloc, &mut entries, at, part) {
            Ok(()) => at += part.len() + 1,
            Err(error) => return Err(error),
        }
    }
    Ok(entries)
}
