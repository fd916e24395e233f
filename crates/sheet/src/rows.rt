//! The weights and the ways of a sheet, and the tests on them. Rests on the definitions of `rules`, Refusals and Sheet, and of Parts.
//! The bodies lie behind each other without gaps, so all ways together are one run of them.
//! The tests are those of `checks`, which says why they stand twice.
ghost use Rattle.std.specs.Prelude.{◌≡◌};
ghost use Rattle.rules.specs.Table.{rows};
ghost use Rattle.rules.specs.Refusals;
ghost use Rattle.rules.specs.Sheet.{faults_in, counts_in, weights_in, bodies_in, total, present_in, absent_in};
ghost use Rattle.sheet.specs.Parts.{words_in};

use super::fields::Raw;
use super::parts::Parts;
use checks::ways::{way_beyond, way_both};
use rules::{Entry, S, Words};

impl<'a> Raw<'a> {
    /// The weights of the sheet.
    #[tactic(auto, using(crate::proofs::Stated::reading))]
    pub fn weights(self) -> Parts<'a, u32>
        ensures { result ≡ weights_in self.entry.bytes.now }
    {
        Parts::new(usize::from(self.faults()), self.rest(self.weights_start()))
    }

    /// The words of so many ways, the first at a position, whether or not a body is there.
    pub fn words(self, start: usize, count: usize) -> Parts<'a, Words>
        ensures { result ≡ words_in start count self.entry.bytes.now }
    {
        Parts::new(count, self.rest(start))
    }

    /// The words of an entry's ways, whether or not the entry comes from the sheet.
    pub fn ways(self, entry: Entry) -> Parts<'a, Words>
        ensures { result ≡ words_in entry.start entry.ways self.entry.bytes.now }
    {
        self.words(entry.start as usize, usize::from(entry.ways))
    }

    /// The words of all ways.
    fn all_ways(self) -> Parts<'a, Words>
        ensures { result ≡ words_in (bodies_in self.entry.bytes.now) (total (counts_in self.entry.bytes.now)) self.entry.bytes.now }
    {
        self.words(self.bodies_start(), self.way_count())
    }

    /// 10: a weight is above S.
    pub fn overweight(self) -> bool
        ensures { result ≡ Refusals.overweight (weights_in self.entry.bytes.now) }
    {
        self.weights().any(|weight| S < u64::from(weight))
    }

    /// 12: a way names a fault that there is not.
    pub fn rows_beyond(self) -> bool
        ensures { result ≡ Refusals.names_beyond (faults_in self.entry.bytes.now)
            (rows 0 (present_in self.entry.bytes.now) (absent_in self.entry.bytes.now)) }
    {
        let faults = usize::from(self.faults());
        self.all_ways().any(|way| way_beyond(faults, way))
    }

    /// 13: a way names a fault in both senses.
    pub fn rows_both(self) -> bool
        ensures { result ≡ Refusals.names_both (rows 0 (present_in self.entry.bytes.now) (absent_in self.entry.bytes.now)) }
    {
        self.all_ways().any(way_both)
    }
}
