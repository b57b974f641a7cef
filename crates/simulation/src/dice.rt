// What is drawn from a seed. Used by every module here.
ghost use Rattle.std.specs.Prelude.{◌<◌};

use rand_chacha::ChaCha8Rng;
use rand_core::{Rng, SeedableRng};

/// A generator of numbers.
#[derive(Drop)]
pub(crate) struct Dice {
    rng: ChaCha8Rng,
}

impl Dice {
    /// That of a seed.
    pub(crate) fn new(seed: u64) -> Dice {
        Dice {
            rng: ChaCha8Rng::seed_from_u64(seed),
        }
    }

    /// A number below this one.
    pub(crate) fn below(&mut self, end: u32) -> u32
        requires { 0 < end }
        ensures { result < end }
    {
        self.rng.next_u32() % end
    }

    /// Whether one in so many comes.
    pub(crate) fn is_one_in(&mut self, many: u32) -> bool
        requires { 0 < many }
    {
        self.below(many) == 0
    }

    /// One of some texts, the empty one of none.
    pub(crate) fn pick<'a>(&mut self, texts: &[&'a str]) -> &'a str {
        let drawn = self.rng.next_u32() as usize;
        if texts.is_empty() {
            ""
        } else {
            texts[drawn % texts.len()]
        }
    }
}
