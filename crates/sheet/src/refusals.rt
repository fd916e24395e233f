//! The refusals of bytes that are read as a sheet, in order, each tried over the whole input before the next.
//! Rests on the definitions of `rules`, Sheet: read_refusals is one list, and each function tries a part of it.
ghost use Rattle.std.specs.Prelude.{◌≡◌, ◌||◌, take, drop};
ghost use Rattle.rules.specs.Refusals.{answered, faults_outside, cues_outside};
ghost use Rattle.rules.specs.Sheet.{faults_in, cues_in, read_refusals};

use super::fields::Raw;
use checks::limits::{check_limits, check_mode};
use checks::lists::{cues_outside, faults_outside};
use rules::Refusal;

impl Raw<'_> {
    /// The refusals of the head: 1 to 4.
    #[tactic(auto, using(crate::proofs::Stated::reading), unfolding(rules::specs::Refusals::answered, rules::specs::Sheet::read_refusals))]
    pub(crate) fn check_head(self) -> Result<(), Refusal>
        ensures { result ≡ answered (take 4 (read_refusals self.entry.bytes.now)) tt }
    {
        Refusal::NoHead.test(self.bytes.len() < 12)?;
        Refusal::CountsOutside.test(
            faults_outside(usize::from(self.faults())) || cues_outside(usize::from(self.cues())),
        )?;
        check_mode(self.limits())?;
        Refusal::TooShort.test(self.bytes.len() < self.bodies_start())
    }

    /// Those of the contents: 5 to 8.
    #[tactic(auto, using(crate::proofs::Stated::reading), unfolding(rules::specs::Refusals::answered, rules::specs::Sheet::read_refusals))]
    pub(crate) fn check_contents(self) -> Result<(), Refusal>
        ensures { result ≡ answered (take 4 (drop 4 (read_refusals self.entry.bytes.now))) tt }
    {
        Refusal::NotRising.test(self.not_rising())?;
        Refusal::Crowded.test(self.crowded())?;
        Refusal::Misplaced.test(self.misplaced())?;
        let end = self.bodies_start() + 16 * self.way_count();
        Refusal::WrongLength.test(self.bytes.len() != end)
    }

    /// Those of the weights, the ways and the limits: 10 to 15.
    #[tactic(auto, unfolding(rules::specs::Refusals::answered, rules::specs::Refusals::way_refusals, rules::specs::Sheet::read_refusals))]
    pub(crate) fn check_bodies(self) -> Result<(), Refusal>
        ensures { result ≡ answered (drop 8 (read_refusals self.entry.bytes.now)) tt }
    {
        Refusal::Overweight.test(self.overweight())?;
        Refusal::NamesBeyond.test(self.rows_beyond())?;
        Refusal::NamesBoth.test(self.rows_both())?;
        check_limits(self.limits())
    }
}
