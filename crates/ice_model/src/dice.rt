//! What is drawn of a number.

ghost use Rattle.std.specs.Prelude.{◌<◌};

use rand_chacha::ChaCha20Rng;
use rand_core::SeedableRng;
use rand_core::utils::NextWord;

/// A source of numbers, all of which come from the number of a case.
#[derive(Drop)]
pub struct Dice {
    words: ChaCha20Rng,
}

impl Dice {
    /// The source of a case.
    pub fn new(case: u64) -> Dice {
        let mut seed = [0; 32];
        seed[..8].copy_from_slice(&case.to_be_bytes());
        Dice {
            words: ChaCha20Rng::from_seed(seed),
        }
    }

    /// A number below another.
    pub fn below(&mut self, end: u32) -> u32
        requires { 0 < end }
        ensures { result < end }
    {
        self.words.next_word() % end
    }

    /// One of these.
    pub fn one_of<'a, T>(&mut self, items: &'a [T]) -> Option<&'a T> {
        if items.is_empty() || items.len() > 255 {
            return None;
        }
        let at = self.below(items.len() as u32) as usize;
        items.get(at)
    }
}
