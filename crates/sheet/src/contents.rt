//! The contents of a sheet's bytes, and the tests on them, each over all cues. Rests on the definitions of `rules`, Refusals and Sheet, and of Parts.
//! 5 and 6 are the tests of `checks`, lists.rt, which has them for slices and says why they stand twice.
//! Where a body starts is counted on from the weights; a stated place is only compared with that.
ghost use Rattle.std.specs.Prelude.{◌≡◌, not, ◌*◌, ◌≤◌, length};
ghost use Rattle.rules.specs.Refusals;
ghost use Rattle.rules.specs.Sheet.{column, total, starts, same_numbers, numbers_in, counts_in, places_in, bodies_in, cues_in};
ghost use Rattle.sheet.specs.Parts.{stated_in};

use super::fields::Raw;
use super::parts::Parts;
use rules::{Entry, MOST_WAYS};
use std::iter::once;

impl<'a> Raw<'a> {
    /// The entries of the first so many cues, as the contents state them.
    #[tactic(auto, using(crate::proofs::Stated::reading))]
    fn entries_before(self, cue: usize) -> Parts<'a, Entry>
        ensures { result ≡ stated_in cue self.entry.bytes.now }
    {
        Parts::new(cue, self.rest(12))
    }

    /// The entries of all cues.
    #[tactic(auto, using(crate::proofs::Stated::reading))]
    pub fn entries(self) -> Parts<'a, Entry>
        ensures entries { result ≡ stated_in (cues_in self.entry.bytes.now) self.entry.bytes.now }
        ensures few { length result ≤ 65535 }
    {
        self.entries_before(usize::from(self.cues()))
    }

    /// 5: the first cue number is 0, or some number is not above the one before it.
    #[tactic(auto, using(crate::proofs::Stated::reading), unfolding(rules::specs::Refusals::not_rising, rules::specs::Refusals::rising))]
    pub fn not_rising(self) -> bool
        ensures { result ≡ Refusals.not_rising (numbers_in self.entry.bytes.now) }
    {
        let numbers = self.entries().map(|entry| entry.cue);
        !once(0)
            .chain(numbers)
            .is_sorted_by(|last, number| last < number)
    }

    /// 6: a way count is above 128.
    pub fn crowded(self) -> bool
        ensures { result ≡ Refusals.crowded (counts_in self.entry.bytes.now) }
    {
        self.entries()
            .any(|entry| MOST_WAYS < usize::from(entry.ways))
    }

    /// 7: a stated place is not where the body starts.
    #[tactic(auto, using(crate::proofs::Stated::reading), unfolding(rules::specs::Sheet::same_numbers, rules::specs::Sheet::starts))]
    pub fn misplaced(self) -> bool
        ensures { result ≡ not (same_numbers (places_in self.entry.bytes.now) (starts (bodies_in self.entry.bytes.now) (counts_in self.entry.bytes.now))) }
    {
        // A loop: `any` would need a closure that moves `start` on, and be no plainer.
        let mut start = self.bodies_start();
        for entry in self.entries() {
            if entry.start as usize != start {
                return true;
            }
            start += 16 * usize::from(entry.ways);
        }
        false
    }

    /// The ways of the first so many cues together.
    pub fn ways_before(self, cue: usize) -> usize
        requires { cue ≤ 65535 }
        ensures sum { result ≡ total (column 2 8 14 cue self.entry.bytes.now) }
        ensures most { result ≤ 65535 * cue }
    {
        self.entries_before(cue)
            .map(|entry| usize::from(entry.ways))
            .sum()
    }

    /// The ways of all cues together.
    pub fn way_count(self) -> usize
        ensures sum { result ≡ total (counts_in self.entry.bytes.now) }
        ensures most { result ≤ 4294836225 }
    {
        self.ways_before(usize::from(self.cues()))
    }
}
