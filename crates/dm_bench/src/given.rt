// The bytes that something was given. They exist only in proofs.
ghost use Rattle.std.specs.Prelude.{◌≡◌, ◌++◌, List, [], ℕ};
ghost use Rattle.std.specs.Borrow.{ftrue};

use std::marker::Model;

/// The bytes that something was given, for proofs alone: it takes no memory, and its calls do nothing at run time.
#[derive(Drop)]
pub struct Given {
    pub ghost bytes: { List ℕ },
}

impl Model for Given {
    ghost also_owns = { λ _. ftrue };
}

impl Given {
    /// Nothing was given.
    pub(crate) fn new() -> Given
        ensures { result.bytes ≡ [] }
    {
        Given {}
    }

    /// A piece was given behind the others.
    pub(crate) fn add(&mut self, _piece: &[u8])
        ensures { self.new.bytes ≡ self.old.bytes ++ _piece.now }
    {}
}
