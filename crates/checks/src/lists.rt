//! Tests on a number and on one list: how many faults and cues, weights, counts of ways, cue numbers.
//! Rests on the definitions of `rules`, Refusals. A sheet's parts have the same tests in `sheet`: a slice and an iterator of parts are known as lists
//! by different facts, so one function over both, or over numbers of both widths, would have more to ask than it does. That two tests look alike
//! but for a number is no twin: each says a rule of its own.
ghost use Rattle.std.specs.Prelude.{◌≡◌};
ghost use Rattle.rules.specs.Refusals;

use rules::{MOST_CUES, MOST_FAULTS, MOST_WAYS, S};
use std::iter::once;

/// 2 and 9: a number of faults that is 0 or above 64.
#[tactic(auto, unfolding(rules::specs::Refusals::faults_outside))]
pub fn faults_outside(n: usize) -> bool
    ensures { result ≡ Refusals.faults_outside n }
{
    !(1..=MOST_FAULTS).contains(&n)
}

/// 2: a number of cues that is 0 or above 24.
#[tactic(auto, unfolding(rules::specs::Refusals::cues_outside))]
pub fn cues_outside(n: usize) -> bool
    ensures { result ≡ Refusals.cues_outside n }
{
    !(1..=MOST_CUES).contains(&n)
}

/// 10: a weight is above S.
pub fn overweight(weights: &[u32]) -> bool
    ensures { result ≡ Refusals.overweight weights.now }
{
    weights.iter().any(|&weight| S < u64::from(weight))
}

/// 6: a way count is above 128.
pub fn crowded(counts: &[u16]) -> bool
    ensures { result ≡ Refusals.crowded counts.now }
{
    counts.iter().any(|&count| MOST_WAYS < usize::from(count))
}

/// 5: the first cue number is 0, or some number is not above the one before it.
#[tactic(auto, unfolding(rules::specs::Refusals::not_rising, rules::specs::Refusals::rising))]
pub fn not_rising(numbers: &[u16]) -> bool
    ensures { result ≡ Refusals.not_rising numbers.now }
{
    !once(0)
        .chain(numbers.iter().copied())
        .is_sorted_by(|last, number| last < number)
}
