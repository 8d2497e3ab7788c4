// Where the leaves stand, and in which order they are built.
ghost use Rattle.std.specs.Prelude.{◌≡◌, ◌<◌};

use crate::fault::Fault;
use rand::seq::SliceRandom;
use rand_core::SeedableRng;
use rand_xoshiro::Xoshiro256PlusPlus;
use std::alloc::Global;

// How many leaves stand below one node, but where all do.
const GROUP: u32 = 256;

// Whatever the seed is, each run has the same order.
const SEED: u64 = 1;

/// A tree of a root, `./B`, groups below that, and leaves below these.
#[derive(Clone, Copy, PartialEq, Eq)]
pub struct Layout {
    pub leaves: u32,
    /// Whether all leaves stand in one group.
    pub flat: bool,
    /// Whether they are built in another order than that of their names.
    pub shuffled: bool,
}

impl Layout {
    /// How many groups there are.
    pub fn groups(self) -> u32 {
        if self.flat {
            1
        } else {
            self.leaves.div_ceil(GROUP)
        }
    }

    /// The number of the group in which a leaf stands.
    pub fn group_of(self, leaf: u32) -> u32 {
        if self.flat { 0 } else { leaf / GROUP }
    }
}

fn plain_order(alloc: Global, leaves: u32) -> Result<Vec<u32>, Fault> {
    let mut order = Vec::new(alloc);
    for leaf in 0..leaves {
        order.push(leaf)?;
    }
    Ok(order)
}

/// The numbers of so many leaves, in an order that looks random and is the same in each run.
pub fn shuffled_order(alloc: Global, leaves: u32) -> Result<Vec<u32>, Fault> {
    let mut order = plain_order(alloc, leaves)?;
    let mut random = Xoshiro256PlusPlus::seed_from_u64(SEED);
    order.as_mut_slice().shuffle(&mut random);
    Ok(order)
}

/// The numbers of the leaves in the order in which they are built.
pub fn build_order(alloc: Global, layout: Layout) -> Result<Vec<u32>, Fault> {
    if layout.shuffled {
        shuffled_order(alloc, layout.leaves)
    } else {
        plain_order(alloc, layout.leaves)
    }
}
