// Turns: in each a leaf or a subtree comes where none is, or goes where one is.
ghost use Rattle.std.specs.Prelude.{◌≡◌, [], OnOk, IfOk};
ghost use Rattle.dm_tree.specs.Nodes.{IsReadAgain};
ghost use Rattle.dm_tree.specs.Rows.{IsTree};
ghost use Rattle.dm_undo.specs.Sound.{IsSound};

use crate::edits::{add, path_of, remove, settle};
use crate::fault::Fault;
use crate::nodes::{BASE, below_uri, group_uri, kept_uri, moving_uri};
use dm_acl::Acl;
use dm_tree::Tree;
use dm_undo::Journal;
use rand_core::{Rng, SeedableRng};
use rand_xoshiro::Xoshiro256PlusPlus;
use std::alloc::Global;

// With the root, `./B` and the leaves that stay, the tree has 1,000 nodes at first.
const GROUPS: u32 = 64;

const KEPT: u32 = 934;

// How many leaves come and go with the node above them, so that twenty nodes do.
const LEAVES: u32 = 19;

// Whatever the seed is, each run has the same words.
const SEED: u64 = 1;

/// A tree with its journal, and how many nodes there were after each turn, folded to a number.
#[derive(Drop)]
pub struct Device {
    pub tree: Tree,
    pub journal: Journal,
    pub sum: u64,
    words: Xoshiro256PlusPlus,
}

fn root_acl(alloc: Global) -> Result<Acl, Fault>
    ensures { IfOk result (λ acl. IsReadAgain acl) }
{
    match Acl::parse(alloc, b"Add=*&Delete=*&Get=*&Replace=*") {
        Ok(acl) => match acl.print(alloc) {
            Ok(text) if text.len() <= 4_096 => Ok(acl),
            Ok(_) => Err(Fault::Lost),
            Err(_) => Err(Fault::Memory),
        },
        Err(_) => Err(Fault::Memory),
    }
}

fn bare_tree(alloc: Global) -> Result<Tree, Fault>
    ensures { IfOk result (λ tree. IsTree tree.rows) }
{
    let acl = root_acl(alloc)?;
    let tree = Tree::new(alloc, acl)?;
    let _ = tree.root();
    Ok(tree)
}

impl Device {
    // A tree that is its root.
    fn bare(alloc: Global) -> Result<Device, Fault>
        ensures { IfOk result (λ d. IsSound d.journal.entries d.tree.rows) }
    {
        Ok(Device {
            tree: bare_tree(alloc)?,
            journal: Journal::new(alloc)?,
            sum: 0,
            words: Xoshiro256PlusPlus::seed_from_u64(SEED),
        })
    }

    fn add(&mut self, alloc: Global, uri: &[u8], interior: bool) -> Result<(), Fault>
        requires { IsSound self.old.journal.entries self.old.tree.rows }
        ensures { OnOk result (IsSound self.new.journal.entries self.new.tree.rows) }
    {
        add(alloc, &mut self.tree, &mut self.journal, uri, interior)
    }

    fn add_groups(&mut self, alloc: Global) -> Result<(), Fault>
        requires { IsSound self.old.journal.entries self.old.tree.rows }
        ensures { OnOk result (IsSound self.new.journal.entries self.new.tree.rows) }
    {
        self.add(alloc, BASE, true)?;
        for group in 0..GROUPS {
            self.add(alloc, &group_uri(group), true)?;
        }
        Ok(())
    }

    fn add_kept(&mut self, alloc: Global) -> Result<(), Fault>
        requires { IsSound self.old.journal.entries self.old.tree.rows }
        ensures { OnOk result (IsSound self.new.journal.entries self.new.tree.rows) }
    {
        for leaf in 0..KEPT {
            self.add(alloc, &kept_uri(leaf % GROUPS, leaf), false)?;
        }
        Ok(())
    }

    /// A tree of 1,000 nodes, with a journal that is settled.
    pub fn new(alloc: Global) -> Result<Device, Fault>
        ensures sound { IfOk result (λ d. IsSound d.journal.entries d.tree.rows) }
        ensures settled { IfOk result (λ d. d.journal.entries ≡ []) }
    {
        let mut device = Device::bare(alloc)?;
        device.add_groups(alloc)?;
        device.add_kept(alloc)?;
        settle(&mut device.tree, &mut device.journal);
        Ok(device)
    }

    fn add_subtree(&mut self, alloc: Global, group: u32) -> Result<(), Fault>
        requires { IsSound self.old.journal.entries self.old.tree.rows }
        ensures { OnOk result (IsSound self.new.journal.entries self.new.tree.rows) }
    {
        self.add(alloc, &moving_uri(group, false), true)?;
        for leaf in 0..LEAVES {
            self.add(alloc, &below_uri(group, leaf), false)?;
        }
        Ok(())
    }

    // One turn, where the word tells: in one of the groups a leaf alone, or a subtree, comes or goes.
    fn turn(&mut self, alloc: Global, word: u64) -> Result<(), Fault>
        requires { IsSound self.old.journal.entries self.old.tree.rows }
        ensures { OnOk result (IsSound self.new.journal.entries self.new.tree.rows) }
    {
        let group = (word % u64::from(GROUPS)) as u32;
        let alone = word / u64::from(GROUPS) % 2 == 0;
        let uri = moving_uri(group, alone);
        let path = path_of(alloc, &uri)?;
        match self.tree.find(&path) {
            Some(id) => remove(&mut self.tree, &mut self.journal, id),
            None if alone => self.add(alloc, &uri, false),
            None => self.add_subtree(alloc, group),
        }
    }

    /// Takes a hundred turns, and settles behind them.
    pub fn take_hundred(&mut self, alloc: Global) -> Result<(), Fault>
        requires { IsSound self.old.journal.entries self.old.tree.rows }
        ensures sound { OnOk result (IsSound self.new.journal.entries self.new.tree.rows) }
        ensures settled { OnOk result (self.new.journal.entries ≡ []) }
    {
        for _ in 0..100 {
            let word = self.words.next_u64();
            self.turn(alloc, word)?;
            let count = u64::from(self.tree.count());
            self.sum = self.sum.wrapping_mul(31).wrapping_add(count);
        }
        settle(&mut self.tree, &mut self.journal);
        Ok(())
    }
}
