// Where a text has its first fault. Nothing here takes memory.
ghost use Rattle.std.specs.Prelude.{◌≡◌, ◌≤◌, Ok, Err, Some, None, true, length, is_some, IsOk, IsTrue, IsFalse};
ghost use Rattle.std.specs.Prelude.{MatchOption, option_map};
ghost use Rattle.dm_acl.specs.declared.values.AclEntry.{AclEntry};
ghost use Rattle.dm_acl.specs.declared.values.AclError.TheVariants as error;
ghost use Rattle.dm_acl.specs.declared.values.Servers.TheVariants.{Everybody};
ghost use Rattle.dm_acl.specs.Grammar.{no_entries, entry_of, with_servers};
ghost use Rattle.dm_acl.specs.Reading.{parts_in, servers_in, entry_in, after_parts};

use crate::reading::{are_server_names, right_in};
use crate::values::{AclEntry, Entries, Right, Servers};

// Whether a list allows somebody, nobody or everybody.
fn are_servers(list: &[u8]) -> bool
    ensures { result ≡ is_some (servers_in list.now) }
{
    list.is_empty() || list == b"*".as_slice() || are_server_names(list)
}

// The command of the entry that a part of a text is. None comes exactly where the part is bad.
fn entry_right(part: &[u8]) -> Option<Right>
    ensures { result ≡ option_map (λ entry. entry.right) (entry_in part.now) }
{
    let right = right_in(part)?;
    let (_, list) = part.split_at(right.head().len());
    are_servers(list).then_some(right)
}

// Notes the command of a part as named and answers true, where the part is an entry and no part before it named that
// command. Whom the entry lists isn't kept: everybody stands for them.
fn put_right(named: &mut Entries, part: &[u8]) -> bool
    ensures new { IsTrue result → (e : AclEntry) × (entry_in part.now ≡ Some e)
        × (entry_of named.old e.right ≡ None) × (named.new ≡ with_servers named.old e.right Everybody) }
    ensures fault { IsFalse result → (e : AclEntry) → entry_in part.now ≡ Some e
        → is_some (entry_of named.old e.right) ≡ true }
{
    match entry_right(part) {
        Some(right) if named.of(right).is_none() => {
            named.put(AclEntry {
                right,
                servers: Servers::Everybody,
            });
            true
        }
        _ => false,
    }
}

// The place of the first fault of a text of at most 4,096 bytes.
pub(crate) fn first_fault(text: &[u8]) -> Option<usize>
    requires { length text.now ≤ 4096 }
    ensures { MatchOption result (IsOk (after_parts no_entries 0 (parts_in text.now)))
        (λ at. after_parts no_entries 0 (parts_in text.now) ≡ Err (error.Malformed at)) }
{
    let mut named = Entries::none();
    let mut at = 0;
    for part in text.split(|b| *b == b'&') {
        if !put_right(&mut named, part) {
            return Some(at);
        }
        at += part.len() + 1;
    }
    None
}
