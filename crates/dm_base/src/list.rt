// A list of values, which contracts see as a list.
ghost use Rattle.std.specs.Prelude.{◌≡◌, ◌==◌, ◌<◌, ◌≤◌, ◌+◌, ◌∷◌, ◌++◌, [], length, take, drop, OnOk, OnErr, IfNone};
ghost use Rattle.std.specs.Prelude.{MatchOption, ◌*◌, max, vec_len, vec_capacity};

use crate::bytes::Memory;
use std::alloc::Global;
use std::marker::Model;

/// A list of values. Its calls are those of a list; after `Memory` it is as before.
#[derive(Drop)]
pub struct List<T> {
    items: Vec<T>,
}

impl<T> Model for List<T> {
    ghost use Rattle.std.specs.Prelude.{List as Values};

    ghost Value = { Values T };

    ghost view = { λ b. b.items.items };
}

// Twice the room of a full vector, so that growing moves fewer values in all than were pushed. A list of one takes room
// for one, not for the four that a vector begins with.
fn double_room<T>(items: &mut Vec<T>) -> Result<(), Memory>
    requires full { vec_len items.old ≡ vec_capacity items.old }
    ensures same { items.new.items ≡ items.old.items }
    ensures len { vec_len items.new ≡ vec_len items.old }
    ensures doubles { OnOk result (vec_capacity items.new ≡ max 1 (2 * vec_capacity items.old)) }
{
    items.reserve_exact(items.len().max(1))?;
    Ok(())
}

impl<T> List<T> {
    ghost use Rattle.std.specs.Prelude.{◌≡◌, ◌==◌, ◌∷◌, ◌++◌, [], length, slice_get, IfOk, MatchOption};
    ghost use Rattle.std.specs.Option.{option_copied_mut};
    ghost use Rattle.std.specs.Borrow.{sem};
    ghost use Rattle.dm_base.specs.Lends.{lends_first, lends_at};

    /// An empty list. It takes no memory.
    pub fn new(alloc: Global) -> List<T>
        ensures { result ≡ [] }
    {
        List {
            items: Vec::new(alloc),
        }
    }

    /// An empty list with room for so many values, which are added without more memory.
    pub fn with_room(alloc: Global, count: usize) -> Result<List<T>, Memory>
        ensures { IfOk result (λ list. list ≡ []) }
    {
        Ok(List {
            items: Vec::with_capacity(alloc, count)?,
        })
    }

    /// The values of a vector, which aren't copied.
    pub fn of_vec(items: Vec<T>) -> List<T>
        ensures { result ≡ items.items }
    {
        List { items }
    }

    /// The vector of these values, which aren't copied.
    pub fn into_vec(self) -> Vec<T>
        ensures { result.items ≡ self }
    {
        self.items
    }

    /// How many values there are.
    pub fn len(&self) -> usize
        ensures { result ≡ length self.now }
    {
        self.items.len()
    }

    /// Whether there is no value.
    pub fn is_empty(&self) -> bool
        ensures { result ≡ (length self.now == 0) }
    {
        self.items.is_empty()
    }

    /// The values, for reading.
    pub fn as_slice(&self) -> &[T]
        ensures { result.now ≡ self.now }
    {
        self.items.as_slice()
    }

    /// The first value, for writing. None comes exactly where the list is empty.
    pub fn first_mut(&mut self) -> Option<&mut T>
        ensures* writes_back { sem 𝓛 (lends_first T.row self.entry result) }
        ensures value { option_copied_mut result ≡ slice_get self.old 0 }
    {
        self.items.first_mut()
    }

    /// The value at a place, for writing. None comes exactly where the list is no longer than this.
    pub fn get_mut(&mut self, at: usize) -> Option<&mut T>
        ensures* writes_back { sem 𝓛 (lends_at T.row self.entry at result) }
        ensures value { option_copied_mut result ≡ slice_get self.old at }
    {
        self.items.get_mut(at)
    }

    /// Takes the last value off. None comes exactly where the list is empty.
    pub fn pop(&mut self) -> Option<T>
        ensures { MatchOption result ((self.old ≡ []) × (self.new ≡ []))
            (λ value. self.old ≡ self.new ++ value ∷ []) }
    {
        self.items.pop()
    }
}

impl<T: Drop> List<T> {
    /// Adds a value at the end. After `Memory` the value is given up. Where there is no room left, room doubles.
    #[inline(always)]
    pub fn push(&mut self, value: T) -> Result<(), Memory>
        ensures ok { OnOk result (self.new ≡ self.old ++ value ∷ []) }
        ensures err { OnErr result (self.new ≡ self.old) }
    {
        // Room first: a vector's own push hands the value back inside its error, which moves it twice.
        if self.items.len() == self.items.capacity() {
            double_room(&mut self.items)?;
        }
        self.items.push_reserved(value);
        Ok(())
    }

    /// Takes room for so many values more, so that they are added without more memory.
    pub fn reserve(&mut self, count: usize) -> Result<(), Memory>
        ensures { self.new ≡ self.old }
    {
        self.items.reserve(count)?;
        Ok(())
    }

    /// Adds a value in front of all others, which takes time linear in their number. After `Memory` the value is given
    /// up.
    pub fn push_front(&mut self, value: T) -> Result<(), Memory>
        ensures ok { OnOk result (self.new ≡ value ∷ self.old) }
        ensures err { OnErr result (self.new ≡ self.old) }
    {
        self.items.insert(0, value)?;
        Ok(())
    }

    /// Moves all values of another list behind those of this one. After `Memory` the other list is given up.
    pub fn append(&mut self, other: List<T>) -> Result<(), Memory>
        ensures ok { OnOk result (self.new ≡ self.old ++ other) }
        ensures err { OnErr result (self.new ≡ self.old) }
    {
        let mut moved = other.items;
        self.items.append(&mut moved)?;
        Ok(())
    }

    /// Gives up the first `count` values, or all where there are fewer. It takes no memory.
    pub fn drop_front(&mut self, count: usize)
        ensures { self.new ≡ drop count self.old }
    {
        let count = count.min(self.items.len());
        self.items.drain(..count);
    }

    /// Keeps the first `count` values, or all where there are fewer. It takes no memory.
    pub fn cut_to(&mut self, count: usize)
        ensures { self.new ≡ take count self.old }
    {
        self.items.truncate(count);
    }

    /// Takes `count` values from place `at` out and gives them up. It takes no memory.
    pub fn take_out(&mut self, at: usize, count: usize)
        requires { at + count ≤ length self.old }
        ensures { self.new ≡ take at self.old ++ drop (at + count) self.old }
    {
        self.items.drain(at..at + count);
    }
}
