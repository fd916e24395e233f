//! Why a call of the writer is refused: the first test that applies to its lists and its space.
//! Rests on the tests of `checks` and on the definitions of `rules`, Refusals and Sheet.
ghost use Rattle.std.specs.Prelude.{◌≡◌, ◌||◌, ◌≤◌, length};
ghost use Rattle.rules.specs.Refusals.{answered, faults_outside, cues_outside};
ghost use Rattle.rules.specs.Sheet.{total, disagree, lists_refusals, write_refusals};
ghost use Rattle.writer.specs.Given.{given, front_refusals};
ghost use Rattle.writer.specs.Judging.{Judging};

use super::lists::{Accepted, Lists};
use checks::limits::{check_limits, check_mode};
use checks::lists::{crowded, cues_outside, faults_outside, not_rising, overweight};
use checks::ways::check_ways;
use rules::{Limits, Refusal};

/// The ways that the cues count, which are few enough for the sum to fit.
fn total(counts: &[u16]) -> usize
    requires { length counts.now ≤ 24 }
    ensures { result ≡ total counts.now }
{
    counts.iter().map(|&count| usize::from(count)).sum()
}

/// 2, 3, 5, 6 and 10, which tell of all but the ways, allowance and budget, and the lengths of the lists.
#[tactic(auto, unfolding(rules::specs::Refusals::answered, crate::specs::Given::front_refusals))]
pub fn check_front(
    limits: Limits,
    weights: &[u32],
    numbers: &[u16],
    counts: &[u16],
) -> Result<(), Refusal>
    ensures { result ≡ answered (front_refusals limits weights.now numbers.now counts.now) tt }
{
    Refusal::CountsOutside.test(
        faults_outside(weights.len()) || cues_outside(numbers.len()) || cues_outside(counts.len()),
    )?;
    check_mode(limits)?;
    Refusal::NotRising.test(not_rising(numbers))?;
    Refusal::Crowded.test(crowded(counts))?;
    Refusal::Overweight.test(overweight(weights))
}

impl<'a> Lists<'a> {
    /// 21: the lists do not agree in length with each other or with the counts.
    #[tactic(auto, unfolding(rules::specs::Sheet::disagree))]
    fn disagree(&self) -> bool
        requires { length self.now.counts.now ≤ 24 }
        ensures { result ≡ disagree (given self.now) }
    {
        self.numbers.len() != self.counts.len()
            || self.present.len() != self.absent.len()
            || self.present.len() != total(self.counts)
    }

    /// 2, 3, 5, 6, 10, 12 to 15 and 21. The counts are added only once 2 has let at most 24 through.
    #[tactic(auto, unfolding(rules::specs::Refusals::answered, rules::specs::Refusals::way_refusals, rules::specs::Refusals::limit_refusals, rules::specs::Refusals::cues_outside, rules::specs::Sheet::lists_refusals, crate::specs::Given::front_refusals))]
    fn check_lists(self) -> Result<Accepted<'a>, Refusal>
        ensures { Judging self.entry (lists_refusals (given self.entry)) result }
    {
        check_front(self.limits, self.weights, self.numbers, self.counts)?;
        check_ways(self.weights.len(), self.present, self.absent)?;
        check_limits(self.limits)?;
        Refusal::Disagree.test(self.disagree())?;
        Ok(Accepted { lists: self })
    }

    /// Those of the lists, then 22: the sheet that they give is longer than the space.
    pub(crate) fn accept(self, space: usize) -> Result<Accepted<'a>, Refusal>
        ensures { Judging self.entry (write_refusals (given self.entry) space) result }
    {
        let accepted = self.check_lists()?;
        Refusal::NoRoom.test(space < accepted.bodies_start() + 16 * self.present.len())?;
        Ok(accepted)
    }

    /// Why a call with a space of so many bytes is refused, if it is.
    /// No code here calls it: it stays for its contract (docs/CONTRACTS.md).
    pub fn check_write(&self, space: usize) -> Result<(), Refusal>
        ensures { result ≡ answered (write_refusals (given self.now) space) tt }
    {
        self.accept(space)?;
        Ok(())
    }
}
