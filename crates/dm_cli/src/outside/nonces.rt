// Nonces of a generator that the system seeds.
ghost use Rattle.std.specs.Prelude.{None};

use dm_base::Nonce;
use dm_outside::Nonces;
use rand::make_rng;
use rand::rngs::StdRng;
use rand_core::Rng;
use std::io;
use std::random::RandomSource;

/// A generator that tells nothing.
#[derive(Drop)]
pub struct RandomNonces {
    generator: StdRng,
}

impl RandomNonces {
    /// Seeded by the system, which may have no seed to give.
    pub fn new<R: RandomSource>(rt: &R) -> io::Result<RandomNonces> {
        Ok(RandomNonces {
            generator: make_rng(rt)?,
        })
    }
}

impl Nonces for RandomNonces {
    ghost left = { λ s. None };

    fn next(&mut self) -> Nonce {
        let mut bytes = [0u8; 16];
        self.generator.fill_bytes(&mut bytes);
        Nonce { bytes }
    }
}
