// What gives nonces, and its form in memory.
ghost use Rattle.std.specs.Prelude.{◌≡◌, List, ℕ, Option, Some};
ghost use Rattle.dm_outside.specs.Updates.{GivesNonce, nonces_of};

use dm_base::{List, Nonce};
use std::collections::VecDeque;
use std::marker::Model;

/// Something that gives nonces. It can't fail.
pub trait Nonces {
    /// The nonces that are left, which zeros follow; where it tells them.
    ghost left: { Self → Option (List (List ℕ)) };

    /// The next nonce.
    fn next(&mut self) -> Nonce
        ensures left { GivesNonce (left self.old) (left self.new) result.bytes };
}

/// Gives the nonces it was made of, in order, and then zeros.
#[derive(Drop)]
pub struct MemNonces {
    nonces: VecDeque<Nonce>,
}

impl Model for MemNonces {
    ghost use Rattle.std.specs.Prelude.{List, ℕ};
    ghost use Rattle.dm_outside.specs.Updates.{nonces_of};

    ghost Value = { List (List ℕ) };

    ghost view = { λ n. nonces_of n.nonces.items };
}

impl MemNonces {
    /// Gives these nonces.
    pub fn new(nonces: List<Nonce>) -> MemNonces
        ensures { result ≡ nonces_of nonces }
    {
        MemNonces {
            nonces: VecDeque::from_vec(nonces.into_vec()),
        }
    }
}

impl Nonces for MemNonces {
    ghost left = { λ n. Some n };

    fn next(&mut self) -> Nonce {
        match self.nonces.pop_front() {
            Some(nonce) => nonce,
            None => Nonce { bytes: [0; 16] },
        }
    }
}
