//! The bits of a word: a test of one, and those that are set, one after the other.
//! Rests on `rules`, Table, and on trailing_zeros, so that a walk's cost follows the number of set bits.
ghost use Rattle.std.specs.Prelude.{◌≡◌, ℕ, List};
ghost use Rattle.std.specs.Iterator.{YieldsFirst, item_count};
ghost use Rattle.rules.specs.Table.{bit};
ghost use Rattle.chances.specs.Bits.{set_bits};

use std::marker::Model;

/// Bit i of a word, which has none from 64 on.
pub fn has(w: u64, i: usize) -> bool
    ensures { result ≡ bit i w }
{
    i < 64 && (w >> i) & 1 == 1
}

/// The set bits of a word that are still to come, seen as their list, the lowest first.
#[derive(Drop)]
pub struct Bits {
    word: u64,
}

impl Model for Bits {
    ghost Value = { List ℕ };

    ghost view = { λ b. set_bits b.word };
}

impl Bits {
    /// All set bits of a word.
    pub fn of(word: u64) -> Bits
        ensures { result ≡ set_bits word }
    {
        Bits { word }
    }
}

impl Iterator for Bits {
    type Item = usize;

    ghost next_gives = { YieldsFirst (λ b. b) };

    ghost remaining = { item_count (λ b. b) };

    #[tactic(auto, using(crate::proofs::First::first_set, crate::proofs::First::none_set, std::proofs::lemmas::Grind::common_steps))]
    fn next(&mut self) -> Option<usize> {
        if self.word == 0 {
            return None;
        }
        let lowest = self.word.trailing_zeros() as usize;
        self.word = self.word & (self.word - 1);
        Some(lowest)
    }
}
