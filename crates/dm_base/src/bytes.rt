// A list of bytes, which contracts see as a list of numbers.
ghost use Rattle.std.specs.Prelude.{◌≡◌, ◌==◌, ◌∷◌, ◌++◌, [], List, ℕ, length, take, drop, OnOk, OnErr, IfOk};

use smallvec::SmallVec;
use std::alloc::{AllocError, AllocFailed, Global};
use std::marker::Model;
use thiserror::Error;

// How many bytes stand in the list itself: most names, URIs, texts of a Meta and values are as short.
const INLINE: usize = 16;

/// Want of memory. It is merged with no other error.
#[derive(Clone, Copy, Debug, PartialEq, Eq, Error)]
#[error("out of memory")]
pub struct Memory;

impl From<AllocError> for Memory {
    fn from(_error: AllocError) -> Memory {
        Memory
    }
}

impl<T: Drop> From<AllocFailed<T>> for Memory {
    fn from(_failed: AllocFailed<T>) -> Memory {
        Memory
    }
}

/// A list of bytes. Its calls are those of a list; after `Memory` it is as before. One that never had room for more
/// than 16 bytes takes no block.
pub struct Bytes {
    items: SmallVec<u8, INLINE>,
}

// By hand, so that what drops a value of many texts calls this for each, and none tells both places of its bytes.
impl Drop for Bytes {
    fn drop(self) {
        let Bytes { items } = self;
        drop(items);
    }
}

impl Model for Bytes {
    ghost use Rattle.std.specs.Prelude.{List, ℕ};

    ghost Value = { List ℕ };

    ghost view = { λ b. b.items.items };
}

impl Bytes {
    /// An empty list. It takes no memory.
    pub fn new(alloc: Global) -> Bytes
        ensures { result ≡ [] }
    {
        Bytes {
            items: SmallVec::new(alloc),
        }
    }

    /// The bytes of a vector. It isn't copied, but where it has room for 16 bytes or fewer.
    pub fn of_vec(items: Vec<u8>) -> Bytes
        ensures { result ≡ items.items }
    {
        Bytes {
            items: SmallVec::from_vec(items),
        }
    }

    /// A list of the bytes of a slice.
    pub fn of_slice(alloc: Global, bytes: &[u8]) -> Result<Bytes, Memory>
        ensures { IfOk result (λ b. b ≡ bytes.now) }
    {
        Ok(Bytes {
            items: SmallVec::from_slice(alloc, bytes)?,
        })
    }

    /// How many bytes there are.
    pub fn len(&self) -> usize
        ensures { result ≡ length self.now }
    {
        self.items.len()
    }

    /// Whether there is no byte.
    pub fn is_empty(&self) -> bool
        ensures { result ≡ (length self.now == 0) }
    {
        self.items.is_empty()
    }

    /// The bytes, for reading.
    pub fn as_slice(&self) -> &[u8]
        ensures { result.now ≡ self.now }
    {
        self.items.as_slice()
    }

    /// Adds a byte at the end.
    pub fn push(&mut self, byte: u8) -> Result<(), Memory>
        ensures ok { OnOk result (self.new ≡ self.old ++ byte ∷ []) }
        ensures err { OnErr result (self.new ≡ self.old) }
    {
        self.items.push(byte)?;
        Ok(())
    }

    /// Adds these bytes at the end.
    pub fn extend(&mut self, bytes: &[u8]) -> Result<(), Memory>
        ensures ok { OnOk result (self.new ≡ self.old ++ bytes.now) }
        ensures err { OnErr result (self.new ≡ self.old) }
    {
        self.items.extend_from_slice(bytes)?;
        Ok(())
    }

    /// Takes room for so many bytes more, so that they are added without more memory.
    pub fn reserve(&mut self, count: usize) -> Result<(), Memory>
        ensures { self.new ≡ self.old }
    {
        self.items.reserve(count)?;
        Ok(())
    }

    /// Gives up the first `count` bytes, or all where there are fewer. It takes no memory.
    pub fn drop_front(&mut self, count: usize)
        ensures { self.new ≡ drop count self.old }
    {
        if count == 0 {
            return;
        }
        let count = count.min(self.items.len());
        let left = self.items.len() - count;
        self.items.as_mut_slice().copy_within(count.., 0);
        self.items.truncate(left);
    }

    /// Keeps the first `count` bytes, or all where there are fewer. It takes no memory.
    pub fn cut_to(&mut self, count: usize)
        ensures { self.new ≡ take count self.old }
    {
        self.items.truncate(count);
    }

    /// The same bytes in memory of their own.
    pub fn copy(&self, alloc: Global) -> Result<Bytes, Memory>
        ensures { IfOk result (λ b. b ≡ self.now) }
    {
        Bytes::of_slice(alloc, self.items.as_slice())
    }
}
