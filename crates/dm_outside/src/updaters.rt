// What installs packages, and its form in memory.
ghost use Rattle.std.specs.Prelude.{◌≡◌, ◌∷◌, ◌++◌, [], List, ℕ, Option, Some, drop, IfOk, OnErr};
ghost use Rattle.dm_base.specs.Outside.{PutCounts};
ghost use Rattle.dm_outside.specs.declared.told.Update.{Update};
ghost use Rattle.dm_outside.specs.Told.{coming};
ghost use Rattle.dm_outside.specs.Updates.{Updates, AnswersNext};

use crate::told::Update;
use dm_base::{Bytes, Fault, List, Memory};
use std::alloc::Global;
use std::collections::VecDeque;
use std::marker::Model;

/// Something that installs packages.
pub trait Updater {
    /// The packages that it was given, each with its answer; where it tells them.
    ghost told: { Self → Option (List Update) };

    /// How often it has failed. The count never falls.
    ghost faults: { Self → ℕ };

    /// Whether the package was installed. After `Memory` it was not given at all.
    fn update(&mut self, package: &[u8]) -> Result<bool, Fault>
        ensures told { Updates (told self.old) (told self.new) «package».now result }
        ensures count { PutCounts (faults self.old) (faults self.new) result };
}

/// An updater that gives the answers it was made of, in order, and keeps the packages.
#[derive(Drop)]
pub struct MemUpdater {
    alloc: Global,
    to_come: VecDeque<Option<bool>>,
    given: List<Update>,
    faults: u64,
}

impl Model for MemUpdater {
    ghost use Rattle.dm_outside.specs.Memory.{UpdaterState};

    ghost Value = { UpdaterState };

    ghost view = { λ u. record { to_come = u.to_come.items; given = u.given; faults = u.faults } };
}

impl MemUpdater {
    /// Gives these answers. A call in whose place none stands fails, and so does each after the last.
    pub fn new(alloc: Global, answers: List<Option<bool>>) -> MemUpdater
        ensures { result ≡ record { to_come = answers; given = []; faults = 0 } }
    {
        MemUpdater {
            alloc,
            to_come: VecDeque::from_vec(answers.into_vec()),
            given: List::new(alloc),
            faults: 0,
        }
    }

    // The next answer, where there is one.
    fn next_answer(&self) -> Option<bool>
        ensures { result ≡ coming self.now.to_come }
    {
        match self.to_come.front() {
            Some(answer) => *answer,
            None => None,
        }
    }

    // Takes a package and gives the next answer, but for the count of faults.
    fn note(&mut self, package: &[u8]) -> Result<Option<bool>, Memory>
        ensures answer { IfOk result (λ answer. answer ≡ coming self.old.to_come) }
        ensures ok { IfOk result (λ answer. self.new ≡ record self.old {
          to_come = drop 1 self.old.to_come;
          given = self.old.given ++ (record { bytes = «package».now; answer = answer }) ∷ [];
        }) }
        ensures err { OnErr result (self.new ≡ self.old) }
    {
        let bytes = Bytes::of_slice(self.alloc, package)?;
        let answer = self.next_answer();
        self.given.push(Update { bytes, answer })?;
        self.to_come.pop_front();
        Ok(answer)
    }
}

impl Updater for MemUpdater {
    ghost told = { λ u. Some u.given };

    ghost faults = { λ u. u.faults };

    fn update(&mut self, package: &[u8]) -> Result<bool, Fault>
        ensures told { Updates (Some self.old.given) (Some self.new.given) «package».now result }
        ensures answer { AnswersNext self.old.to_come self.new.to_come result }
        ensures count { PutCounts self.old.faults self.new.faults result }
    {
        match self.note(package) {
            Ok(Some(done)) => Ok(done),
            Ok(None) => {
                self.faults = self.faults.saturating_add(1);
                Err(Fault::Failed)
            }
            Err(Memory) => Err(Fault::Memory),
        }
    }
}
