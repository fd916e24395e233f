//! Fractions: their sums, weights and comparisons, none of which overflows, since 24 and 25 come first.
//! Rests on the definitions of specs/Fractions.antt and the promises of specs/Promises.antt.
ghost use Rattle.std.specs.Prelude.{◌≡◌, false, ◌||◌, [], ◌∷◌, slice_index, drop};
ghost use Rattle.std.specs.Iterator.{YieldsFirst, item_count};
ghost use Rattle.captures.specs.Fractions.{unjudged, beyond, fraction_answer, total_answer, fractions_in, weight_of};
ghost use Rattle.captures.specs.Promises.{Added, Weighed, Compared};

use super::{Fraction, LIMIT};
use rules::{Refusal, S};
use std::cmp::Ordering;
use std::marker::Model;

impl Fraction {
    /// 24: no packet was judged.
    #[tactic(auto, unfolding(crate::specs::Fractions::unjudged))]
    fn is_unjudged(self) -> bool
        ensures { result ≡ unjudged self }
    {
        self.judged == 0
    }

    /// 25: too many packets were judged, or more discarded than judged.
    #[tactic(auto, unfolding(crate::specs::Fractions::beyond))]
    fn is_beyond(self) -> bool
        ensures { result ≡ beyond self }
    {
        LIMIT < self.judged || self.judged < self.discarded
    }

    /// 25 applies to one of two fractions: `add` and `compare` both ask it.
    fn either_beyond(self, other: Fraction) -> bool
        ensures { result ≡ (beyond self || beyond other) }
    {
        self.is_beyond() || other.is_beyond()
    }

    /// The fraction by itself: refused by 25, or as it is.
    #[tactic(auto, using(std::proofs::lemmas::Grind::common_steps), unfolding(rules::specs::Refusals::answered, crate::specs::Fractions::fraction_answer, crate::specs::Fractions::fraction_refusals))]
    pub fn accept(self) -> Result<Fraction, Refusal>
        ensures { result ≡ fraction_answer self }
    {
        Refusal::Beyond.test(self.is_beyond())?;
        Ok(self)
    }

    /// The sum of two fractions.
    #[tactic(auto, using(std::proofs::lemmas::Grind::common_steps, crate::proofs::Sums::adding), unfolding(rules::specs::Refusals::answered, crate::specs::Fractions::fraction_answer, crate::specs::Fractions::fraction_refusals))]
    pub fn add(self, other: Fraction) -> Result<Fraction, Refusal>
        ensures { result ≡ total_answer (self ∷ other ∷ []) }
    {
        Refusal::Beyond.test(self.either_beyond(other))?;
        let sum = Fraction {
            discarded: self.discarded + other.discarded,
            judged: self.judged + other.judged,
        };
        sum.accept()
    }

    /// discarded × S / judged, rounded up; no product overflows, and no weight is above S.
    #[tactic(auto, using(crate::proofs::Exact::rounding), unfolding(crate::specs::Fractions::weight_of))]
    fn rounded_up(self) -> u32
        requires some { unjudged self ≡ false }
        requires within { beyond self ≡ false }
        ensures { result ≡ weight_of self }
    {
        (self.discarded * S).div_ceil(self.judged) as u32
    }

    /// The weight of the fraction: in billionths, rounded up.
    #[tactic(auto, using(std::proofs::lemmas::Grind::common_steps), unfolding(rules::specs::Refusals::answered, crate::specs::Fractions::weight_answer, crate::specs::Fractions::weight_refusals, crate::specs::Fractions::fraction_refusals))]
    pub fn weight(self) -> Result<u32, Refusal>
        ensures promise { Weighed self result }
    {
        Refusal::Unjudged.test(self.is_unjudged())?;
        Refusal::Beyond.test(self.is_beyond())?;
        Ok(self.rounded_up())
    }

    /// The fraction beside another.
    #[tactic(auto, using(std::proofs::lemmas::Grind::common_steps, crate::proofs::Exact::comparing), unfolding(rules::specs::Refusals::answered, crate::specs::Fractions::compare_answer, crate::specs::Fractions::compare_refusals))]
    pub fn compare(self, other: Fraction) -> Result<Ordering, Refusal>
        ensures promise { Compared self other result }
    {
        Refusal::Unjudged.test(self.is_unjudged() || other.is_unjudged())?;
        Refusal::Beyond.test(self.either_beyond(other))?;
        Ok((self.discarded * other.judged).cmp(&(other.discarded * self.judged)))
    }
}

/// The first number of a list, 0 where it has none, and the numbers behind it.
fn first_of(list: &[u64]) -> (u64, &[u64])
    ensures first { result.0 ≡ slice_index list.now 0 }
    ensures behind { result.1.now ≡ drop 1 list.now }
{
    match list {
        [first, behind @ ..] => (*first, behind),
        [] => (0, list),
    }
}

/// The fractions that two lists give, seen as their list: as many as the longer one has, and a number that the other lacks is 0.
/// Two lists, as C lends them.
#[derive(Drop)]
struct Pairs<'a> {
    discarded: &'a [u64],
    judged: &'a [u64],
}

impl<'a> Model for Pairs<'a> {
    ghost use Rattle.std.specs.Prelude.{List};
    ghost use Rattle.captures.specs.declared.Fraction.{Fraction};
    ghost use Rattle.captures.specs.Fractions.{fractions_in};

    ghost Value = { List Fraction };

    ghost view = { λ p. fractions_in p.discarded.now p.judged.now };
}

impl Iterator for Pairs<'_> {
    type Item = Fraction;

    ghost next_gives = { YieldsFirst (λ p. p) };

    ghost remaining = { item_count (λ p. p) };

    #[tactic(auto, using(crate::proofs::Listed::pairs_cut, std::proofs::lemmas::Grind::common_steps), unfolding(crate::specs::Fractions::fractions_in))]
    fn next(&mut self) -> Option<Fraction> {
        if self.discarded.is_empty() && self.judged.is_empty() {
            return None;
        }
        let (discarded, later) = first_of(self.discarded);
        let (judged, behind) = first_of(self.judged);
        self.discarded = later;
        self.judged = behind;
        Some(Fraction { discarded, judged })
    }
}

/// The sum of the fractions that two lists give, up to the first that is refused or makes it so.
pub fn total(discarded: &[u64], judged: &[u64]) -> Result<Fraction, Refusal>
    ensures promise { Added (fractions_in discarded.now judged.now) result }
{
    let mut sum = Fraction::default();
    for fraction in (Pairs { discarded, judged }) {
        sum = sum.add(fraction)?;
    }
    Ok(sum)
}
