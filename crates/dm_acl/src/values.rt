// What an access list is made of.
ghost use Rattle.std.specs.Prelude.{◌≡◌, option_map};
ghost use Rattle.dm_acl.specs.Grammar.{entry_of, with_entry, no_entries, head_of};

use dm_base::{Bytes, List};
use thiserror::Error;

/// The commands that an access list speaks of. Copy has none: the profile answers it with 406.
#[derive(Clone, Copy, Debug, PartialEq, Eq)]
pub enum Right {
    Add,
    Delete,
    Exec,
    Get,
    Replace,
}

/// Why a text isn't an access list.
#[derive(Clone, Copy, Debug, PartialEq, Eq, Error)]
pub enum AclError {
    /// The place of the first byte of the first entry that is bad or names a command again; 4,096 for a longer text.
    #[error("no access list from byte {0} on")]
    Malformed(usize),
    #[error("out of memory")]
    Memory,
}

/// Whom an entry allows.
#[derive(Drop)]
pub enum Servers {
    Everybody,
    /// The servers of these names, which may be none.
    Named(List<Bytes>),
}

/// An entry of a text.
#[derive(Drop)]
pub struct AclEntry {
    pub right: Right,
    pub servers: Servers,
}

/// For each command its entry, or none.
#[derive(Drop)]
pub struct Entries {
    pub add: Option<Servers>,
    pub delete: Option<Servers>,
    pub exec: Option<Servers>,
    pub get: Option<Servers>,
    pub replace: Option<Servers>,
}

impl Right {
    // The command's name, and `=`.
    pub(crate) fn head(self) -> &'static [u8]
        ensures { result.now ≡ head_of self }
    {
        match self {
            Right::Add => b"Add=",
            Right::Delete => b"Delete=",
            Right::Exec => b"Exec=",
            Right::Get => b"Get=",
            Right::Replace => b"Replace=",
        }
    }
}

impl Entries {
    pub(crate) fn none() -> Entries
        ensures { result ≡ no_entries }
    {
        Entries {
            add: None,
            delete: None,
            exec: None,
            get: None,
            replace: None,
        }
    }

    pub(crate) fn of(&self, right: Right) -> &Option<Servers>
        ensures { result.now ≡ entry_of self.now right }
    {
        match right {
            Right::Add => &self.add,
            Right::Delete => &self.delete,
            Right::Exec => &self.exec,
            Right::Get => &self.get,
            Right::Replace => &self.replace,
        }
    }

    pub(crate) fn put(&mut self, entry: AclEntry)
        ensures { self.new ≡ with_entry self.old entry }
    {
        let servers = Some(entry.servers);
        match entry.right {
            Right::Add => self.add = servers,
            Right::Delete => self.delete = servers,
            Right::Exec => self.exec = servers,
            Right::Get => self.get = servers,
            Right::Replace => self.replace = servers,
        }
    }
}
