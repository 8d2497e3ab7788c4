// The entries that wait.
ghost use Rattle.std.specs.Prelude.{◌≡◌, ◌<◌, ◌≤◌, ◌+◌, ◌∷◌, ◌++◌, [], length, map, take, drop, OnOk, OnErr, IfOk};
ghost use Rattle.std.specs.Prelude.{MatchOption};
ghost use Rattle.dm_pack.specs.Entries.{whole_entry};
ghost use Rattle.dm_pack.specs.Filling.{next_rest, left_after, HasMore, CanBeTaken};

use crate::filled::Filled;
use crate::waiting::{Waiting, set_apart};
use dm_base::{List, Memory};
use std::alloc::Global;
use std::collections::VecDeque;
use std::marker::Model;
use syncml_types::Command;

/// The entries that wait to be sent, in order. It takes entries at both ends, and moves the others only where its room
/// has to grow.
#[derive(Drop)]
pub struct Queue {
    alloc: Global,
    entries: VecDeque<Waiting>,
}

impl Model for Queue {
    ghost use Rattle.std.specs.Prelude.{List};
    ghost use Rattle.dm_pack.specs.Entries.{Entry};

    ghost Value = { List Entry };

    ghost view = { λ q. q.entries.items };
}

// The first entry, where bytes of it went out, goes on behind them.
fn go_on(entries: &mut VecDeque<Waiting>, bytes: usize)
    requires some { 0 < bytes }
    requires more { HasMore bytes entries.old.items }
    ensures { entries.new.items ≡ next_rest bytes entries.old.items }
{
    if let Some(first) = entries.front_mut() {
        first.go_on(bytes);
    }
}

impl Queue {
    /// An empty queue, which takes no memory.
    pub fn new(alloc: Global) -> Queue
        ensures { result ≡ [] }
    {
        Queue {
            alloc,
            entries: VecDeque::new(alloc),
        }
    }

    /// Adds an entry behind all others; its CmdIDs are set when it is sent. After `Memory` the entry is given up.
    #[inline(always)]
    pub fn push_back(&mut self, entry: Command) -> Result<(), Memory>
        ensures ok { OnOk result (self.new ≡ self.old ++ whole_entry entry ∷ []) }
        ensures err { OnErr result (self.new ≡ self.old) }
    {
        let mut command = entry;
        let apart = set_apart(self.alloc, &mut command)?;
        self.entries.push_back(Waiting::new(command, apart))?;
        Ok(())
    }

    // Adds entries behind all others. After `Memory` some of them may stand there.
    pub(crate) fn push_all(&mut self, entries: List<Command>) -> Result<(), Memory>
        ensures { OnOk result (self.new ≡ self.old ++ map whole_entry entries) }
    {
        for entry in entries.into_vec() {
            self.push_back(entry)?;
        }
        Ok(())
    }

    /// Adds an entry in front of all others. After `Memory` the entry is given up.
    pub fn push_front(&mut self, entry: Command) -> Result<(), Memory>
        ensures ok { OnOk result (self.new ≡ whole_entry entry ∷ self.old) }
        ensures err { OnErr result (self.new ≡ self.old) }
    {
        let mut command = entry;
        let apart = set_apart(self.alloc, &mut command)?;
        self.entries.push_front(Waiting::new(command, apart))?;
        Ok(())
    }

    /// How many entries wait.
    pub fn len(&self) -> usize
        ensures { result ≡ length self.now }
    {
        self.entries.len()
    }

    /// Keeps the first `count` entries, or all where there are fewer. It takes no memory.
    pub fn cut_to(&mut self, count: usize)
        ensures { self.new ≡ take count self.old }
    {
        self.entries.truncate(count);
    }

    /// Takes `count` entries from place `at` out and gives them up. It takes no memory.
    pub fn remove(&mut self, at: usize, count: usize)
        requires { at + count ≤ length self.old }
        ensures { self.new ≡ take at self.old ++ drop (at + count) self.old }
    {
        self.entries.drain(at..at + count);
    }

    /// An equal queue.
    pub fn copy(&self) -> Result<Queue, Memory>
        ensures { IfOk result (λ copied. copied ≡ self.now) }
    {
        let mut entries = VecDeque::new(self.alloc);
        for at in 0..self.entries.len() {
            entries.push_back(self.entries[at].copy(self.alloc)?)?;
        }
        Ok(Queue {
            alloc: self.alloc,
            entries,
        })
    }

    /// Takes off what a message holds: the whole entries, and the part of the next one, which is begun then. It takes
    /// no memory, and moves no Data and no entry that waits.
    #[tactic(auto, unfolding(crate::specs::Filling::left_after))]
    pub fn commit(&mut self, filled: &Filled)
        requires { CanBeTaken self.old filled.now.whole filled.now.cut }
        ensures { self.new ≡ left_after self.old filled.now.whole filled.now.cut }
    {
        self.entries.drain(..filled.whole);
        if filled.cut > 0 {
            go_on(&mut self.entries, filled.cut as usize);
        }
    }

    // So many bytes of the first entry have gone out.
    pub(crate) fn go_on(&mut self, bytes: usize)
        requires { HasMore bytes self.old }
        ensures { self.new ≡ next_rest bytes self.old }
    {
        if bytes > 0 {
            go_on(&mut self.entries, bytes);
        }
    }

    // Takes the first entry out.
    pub(crate) fn pop_front(&mut self) -> Option<Waiting>
        ensures { MatchOption result (self.old ≡ []) (λ entry. self.old ≡ entry ∷ self.new) }
    {
        self.entries.pop_front()
    }

    pub(crate) fn first(&self) -> &Waiting
        requires { 0 < length self.now }
        ensures { self.now ≡ result.now ∷ drop 1 self.now }
    {
        &self.entries[0]
    }

    pub(crate) fn alloc(&self) -> Global {
        self.alloc
    }

    pub(crate) fn entry(&self, at: usize) -> &Waiting
        requires { at < length self.now }
        ensures { drop at self.now ≡ result.now ∷ drop (at + 1) self.now }
    {
        &self.entries[at]
    }
}
