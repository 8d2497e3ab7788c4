// A path from the root, which contracts see as a list of names.
ghost use Rattle.std.specs.Prelude.{◌≡◌, ◌<◌, ◌≤◌, ◌==◌, ◌∷◌, ◌++◌, [], length, OnOk, OnErr, IfErr, MatchOption};
ghost use Rattle.std.specs.Prelude.{bytes_eq};
ghost use Rattle.std.specs.Ordering.{nat_cmp};
ghost use Rattle.std.specs.Cmp.Lexicographic.{pointwise, slice_cmp};
ghost use Rattle.dm_uri.specs.Names.{IsPath};
ghost use Rattle.dm_uri.specs.declared.uri.UriError.TheVariants as error;

use crate::name::Name;
use crate::uri::UriError;
use dm_base::List;
use std::alloc::Global;
use std::cmp::Ordering;
use std::marker::Model;

/// A path of at most 16 names. The empty one is the root.
#[derive(Drop)]
pub struct Path {
    names: List<Name>,
}

impl Model for Path {
    ghost use Rattle.std.specs.Prelude.{List, ℕ};
    ghost use Rattle.dm_uri.specs.Names.{IsPath};

    ghost Value = { List (List ℕ) };

    ghost view = { λ p. p.names };

    ghost invariant = { λ p. IsPath p.names };
}

impl Path {
    /// The path of the root, which has no name. It takes no memory.
    pub fn new(alloc: Global) -> Path
        ensures { result ≡ [] }
    {
        Path {
            names: List::new(alloc),
        }
    }

    pub(crate) fn of(names: List<Name>) -> Path
        requires { IsPath names }
        ensures { result ≡ names }
    {
        Path { names }
    }

    /// Its names, the one below the root first. Each path keeps to the limits.
    pub fn as_slice(&self) -> &[Name]
        ensures names { result.now ≡ self.now }
        ensures path { IsPath self.now }
    {
        self.names.as_slice()
    }

    /// Adds a name at the end. Memory is the only error; after it the name is given up.
    pub fn push(&mut self, name: Name) -> Result<(), UriError>
        requires { length self.old < 16 }
        ensures ok { OnOk result (self.new ≡ self.old ++ name ∷ []) }
        ensures err { OnErr result (self.new ≡ self.old) }
        ensures memory { IfErr result (λ e. e ≡ error.Memory) }
    {
        // Its contract says that the name keeps to the form and the limit.
        let _ = name.as_slice();
        self.names.push(name)?;
        Ok(())
    }

    /// Takes the last name off. None comes exactly at the root. It takes no memory.
    pub fn pop(&mut self) -> Option<Name>
        ensures { MatchOption result ((self.old ≡ []) × (self.new ≡ []))
            (λ name. self.old ≡ self.new ++ name ∷ []) }
    {
        self.names.pop()
    }

    /// Goes back to the root. It takes no memory.
    pub fn clear(&mut self)
        ensures { self.new ≡ [] }
    {
        self.names.cut_to(0);
    }

    /// Whether two paths have the same names, with case.
    pub fn is_same(&self, other: &Path) -> bool
        ensures { result ≡ pointwise bytes_eq self.now other.now }
    {
        are_same(self.as_slice(), other.as_slice())
    }

    /// The order of two paths by their names: a path stands before those below it, and siblings by their bytes.
    pub fn compare(&self, other: &Path) -> Ordering
        ensures { result ≡ slice_cmp (slice_cmp nat_cmp) self.now other.now }
    {
        order_of(self.as_slice(), other.as_slice())
    }
}

fn are_same(left: &[Name], right: &[Name]) -> bool
    ensures { result ≡ pointwise bytes_eq left.now right.now }
{
    if left.len() != right.len() {
        return false;
    }
    for i in 0..left.len() {
        if !left[i].is_same(&right[i]) {
            return false;
        }
    }
    true
}

fn order_of(left: &[Name], right: &[Name]) -> Ordering
    ensures { result ≡ slice_cmp (slice_cmp nat_cmp) left.now right.now }
{
    for i in 0..left.len().min(right.len()) {
        match left[i].compare(&right[i]) {
            Ordering::Equal => {}
            other => return other,
        }
    }
    left.len().cmp(&right.len())
}
