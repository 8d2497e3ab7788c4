// The digest of a text as it is put, of which nothing is kept.
ghost use Rattle.std.specs.Prelude.{◌≡◌, [], Some};
ghost use Rattle.md5.specs.Md5.{md5, Holds};

use crate::given::Given;
use dm_base::{Fault, Sink};
use md5::{Digest, Md5};

/// A sink that keeps the digest of what is put to it, and nothing else.
#[derive(Drop)]
pub struct Hashing {
    hasher: Md5,
    given: Given,
    ghost held: { ∥ Holds hasher given.bytes ∥₁ },
}

impl Hashing {
    /// Nothing was put.
    pub(crate) fn new() -> Hashing
        ensures { result.given.bytes ≡ [] }
    {
        Hashing {
            hasher: Md5::new(),
            given: Given::new(),
        }
    }

    /// The digest of all that was put.
    pub(crate) fn digest(self) -> [u8; 16]
        ensures { result ≡ md5 self.given.bytes }
    {
        self.hasher.finalize()
    }
}

impl Sink for Hashing {
    ghost got = { λ s. Some s.given.bytes };

    ghost faults = { λ _. 0 };

    fn put(&mut self, piece: &[u8]) -> Result<usize, Fault> {
        self.hasher.update(piece);
        self.given.add(piece);
        Ok(piece.len())
    }
}
