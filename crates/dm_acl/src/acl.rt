// The access list of a node.
ghost use Rattle.std.specs.Prelude.{◌≡◌, ◌≤◌, ◌↔◌, true, Ok, Err, length, IfOk, IfErr};
ghost use Rattle.dm_acl.specs.declared.values.AclError.TheVariants as error;
ghost use Rattle.dm_acl.specs.Grammar.{allowed, has_entry, printed, IsAcl};
ghost use Rattle.dm_acl.specs.Reading.{parse_of, Answers};
ghost use Rattle.dm_acl.specs.Same.{same_entries};

use crate::copies::copy_entries;
use crate::judging::first_fault;
use crate::printing::put_entries;
use crate::reading::{is_among, read_parts};
use crate::same::same_entries;
use crate::values::{AclError, Entries, Right, Servers};
use dm_base::{Bytes, Memory};
use std::alloc::Global;
use std::boxed::Box;
use std::marker::Model;

/// How many bytes a text has at most.
pub const TEXT_LIMIT: usize = 4_096;

/// An access list: for each command an entry or none, and an entry for one command at least.
#[derive(Drop)]
pub struct Acl {
    // In a box, since nearly no node of a tree has one.
    entries: Box<Entries>,
}

impl Model for Acl {
    ghost use Rattle.dm_acl.specs.declared.values.Entries.{Entries as Meant};
    ghost use Rattle.dm_acl.specs.Grammar.{IsAcl};

    ghost Value = { Meant };

    ghost view = { λ a. a.entries.value };

    ghost invariant = { λ a. IsAcl a.entries.value };
}

// The list of these entries.
fn boxed(alloc: Global, entries: Entries) -> Result<Acl, AclError>
    requires { IsAcl entries }
    ensures { Answers result (Ok entries) }
{
    match Box::new(alloc, entries) {
        Ok(entries) => Ok(Acl { entries }),
        Err(_) => Err(AclError::Memory),
    }
}

impl Acl {
    /// Reads a text of at most 4,096 bytes: entries joined by `&`, each a command, `=`, and `*`, names joined by `+`,
    /// or nothing; a name has 1 to 64 bytes of 21 to 7E other than `&`, `+`, `=` and `*`. Repeats of a name after the
    /// first are left out. The time is linear in the text, but for the search for repeats, which compares a name with
    /// those before it in its entry.
    ///
    /// `Malformed` tells the first byte of the first entry that is bad or names a command again, 4,096 for a longer
    /// text. `Memory` comes only in place of an access list: a text that is refused is refused without memory.
    pub fn parse(alloc: Global, text: &[u8]) -> Result<Acl, AclError>
        ensures { Answers result (parse_of text.now) }
    {
        if text.len() > TEXT_LIMIT {
            return Err(AclError::Malformed(TEXT_LIMIT));
        }
        if let Some(at) = first_fault(text) {
            return Err(AclError::Malformed(at));
        }
        match read_parts(alloc, text) {
            Ok(entries) => boxed(alloc, entries),
            Err(error) => Err(error),
        }
    }

    /// The text, with the commands in the order Add, Delete, Exec, Get, Replace. The only error is `Memory`.
    pub fn print(&self, alloc: Global) -> Result<Bytes, AclError>
        ensures text { IfOk result (λ text. text ≡ printed self.now) }
        ensures again { IfOk result (λ text. length text ≤ 4096 → parse_of text ≡ Ok self.now) }
        ensures err { IfErr result (λ e. e ≡ error.Memory) }
    {
        match put_entries(alloc, self.entries.as_ref()) {
            Ok(text) => Ok(text),
            Err(_) => Err(AclError::Memory),
        }
    }

    /// Whether this list's own entry for the command allows it to the server. It takes no memory.
    pub fn allows(&self, server: &[u8], right: Right) -> bool
        ensures { result ≡ allowed self.now server.now right }
    {
        match self.entries.as_ref().of(right) {
            None => false,
            Some(Servers::Everybody) => true,
            Some(Servers::Named(names)) => is_among(names.as_slice(), server),
        }
    }

    /// Whether this list has an entry for the command, be it an empty one. It takes no memory.
    pub fn names(&self, right: Right) -> bool
        ensures { result ≡ has_entry self.now right }
    {
        self.entries.as_ref().of(right).is_some()
    }

    /// An equal access list.
    pub fn copy(&self, alloc: Global) -> Result<Acl, Memory>
        ensures { IfOk result (λ copied. copied ≡ self.now) }
    {
        Ok(Acl {
            entries: Box::new(alloc, copy_entries(alloc, self.entries.as_ref())?)?,
        })
    }

    /// Whether two access lists have the same entries. It takes no memory.
    pub fn is_same(&self, other: &Acl) -> bool
        ensures value { result ≡ same_entries self.now other.now }
        ensures same { (result ≡ true) ↔ (self.now ≡ other.now) }
    {
        same_entries(self.entries.as_ref(), other.entries.as_ref())
    }
}
