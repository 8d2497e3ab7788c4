// The list of one row's children, and room for those that may be put in there again.
ghost use Rattle.std.specs.Prelude.{◌≡◌, ◌<◌, ◌≤◌, ◌+◌, ◌-◌, ◌^◌, length, true, OnOk, OnErr};
ghost use Rattle.std.specs.List.{insert, remove};
ghost use Rattle.dm_tree.specs.Index.{no_children};

use dm_base::Memory;
use std::alloc::Global;
use std::marker::Model;

/// The rows right below a row, with the keys of their names beside them, and how many may be put in there again; where
/// the row is free, the next free one, and the place at which the row itself was put in.
#[derive(Drop)]
pub struct Children {
    ids: Vec<u32>,
    keys: Vec<u64>,
    parked: u32,
    next: u32,
    place: usize,
}

impl Model for Children {
    ghost use Rattle.std.specs.Prelude.{◌≡◌, ◌≤◌, vec_len, vec_capacity};
    ghost use Rattle.dm_tree.specs.Index.{ChildList};

    ghost Value = { ChildList };

    ghost view = { λ c. record { ids = c.ids.items; parked = c.parked; room = vec_capacity c.ids } };

    // No more keys than rows, and no room for keys where there is none for rows: what no clause sees doesn't grow, and
    // is freed with the rest.
    ghost invariant = { λ c. (vec_len c.keys ≤ vec_len c.ids) × (vec_capacity c.ids ≡ 0 → vec_capacity c.keys ≡ 0) };
}

impl Children {
    pub(crate) fn new(alloc: Global) -> Children
        ensures { result ≡ no_children }
    {
        Children {
            ids: Vec::new(alloc),
            keys: Vec::new(alloc),
            parked: 0,
            next: 0,
            place: 0,
        }
    }

    // Whether no row stands below it, and none may be put in there again.
    pub(crate) fn is_bare(&self) -> bool
        ensures ids { result ≡ true → length self.now.ids ≡ 0 }
        ensures parked { result ≡ true → self.now.parked ≡ 0 }
    {
        self.ids.len() == 0 && self.parked == 0
    }

    // The free row behind this one. No clause speaks of it: a row is looked at before it is used again.
    pub(crate) fn next(&self) -> u32 {
        self.next
    }

    // Where this row was put in among its parent's children: there it stands, unless others came in or went before it.
    // No clause speaks of it: who is at that place is looked at.
    pub(crate) fn place(&self) -> usize {
        self.place
    }

    pub(crate) fn set_place(&mut self, place: usize)
        ensures { self.new ≡ self.old }
    {
        self.place = place;
    }

    // The list of a free row. What it took is freed.
    pub(crate) fn renew(&mut self, alloc: Global, next: u32)
        ensures { self.new ≡ no_children }
    {
        *self = Children::new(alloc);
        self.next = next;
    }

    pub(crate) fn as_slice(&self) -> &[u32]
        ensures { result.now ≡ self.now.ids }
    {
        self.ids.as_slice()
    }

    // Where a key lies among these, a name mostly stands. No clause speaks of them: the search looks at the names too.
    pub(crate) fn keys(&self) -> &[u64] {
        self.keys.as_slice()
    }

    // One more row may be put in, and there is room for it.
    #[inline(always)]
    pub(crate) fn expect(&mut self) -> Result<(), Memory>
        requires { self.old.parked + 1 < 2 ^ 32 }
        ensures ids { self.new.ids ≡ self.old.ids }
        ensures parked { OnOk result (self.new.parked ≡ self.old.parked + 1) }
        ensures room { OnOk result (length self.new.ids + self.new.parked ≤ self.new.room) }
        ensures err { OnErr result (self.new ≡ self.old) }
    {
        let parked = self.parked + 1;
        self.keys.reserve(parked as usize)?;
        if self.ids.reserve(parked as usize).is_err() {
            // The keys keep no more room than the rows: none where these have none.
            self.keys.shrink_to(self.ids.capacity());
            return Err(Memory);
        }
        self.parked = parked;
        Ok(())
    }

    pub(crate) fn put_in(&mut self, at: usize, id: u32, key: u64)
        requires place { at ≤ length self.old.ids }
        requires parked { 0 < self.old.parked }
        requires room { length self.old.ids + self.old.parked ≤ self.old.room }
        ensures { self.new ≡ record self.old { ids = insert self.old.ids at id; parked = self.old.parked - 1 } }
    {
        if at <= self.keys.len() {
            // There is room for it; without its key a name would be found more slowly.
            let _ = self.keys.insert(at, key);
        }
        match self.ids.insert(at, id) {
            Ok(()) => self.parked -= 1,
            Err(_) => unreachable!(),
        }
    }

    pub(crate) fn take_out(&mut self, at: usize)
        requires place { at < length self.old.ids }
        requires parked { self.old.parked + 1 < 2 ^ 32 }
        ensures { self.new ≡ record self.old { ids = remove self.old.ids at; parked = self.old.parked + 1 } }
    {
        if at < self.keys.len() {
            self.keys.remove(at);
        }
        self.ids.remove(at);
        self.parked += 1;
    }

    pub(crate) fn give_up(&mut self)
        requires { 0 < self.old.parked }
        ensures { self.new ≡ record self.old { parked = self.old.parked - 1 } }
    {
        self.parked -= 1;
    }
}
