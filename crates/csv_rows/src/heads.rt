//! The first two records of a text: the limits and the weights. Rests on fields.rt and lists.rt.
ghost use Rattle.std.specs.Prelude.{◌≡◌, length, set};
ghost use Rattle.csv_rows.specs.Fields.{fields_left, lines_left};
ghost use Rattle.csv_rows.specs.Told.{ReadsFields, ReadsLine, Stored, mode_said, run_said, weights_kept, weights_counted};

use super::fields::{Rest, number_field, word_field};
use super::lists::keep;
use arrayvec::ArrayVec;
use rules::Limits;

// No code here reads the count: it stays for the contract of `weights` (docs/CONTRACTS.md).
/// The weights that a record says: the first N, those that 32 bits do not hold as the most that they hold, and how many there are in all.
#[derive(Drop)]
pub struct WeightsKept<const N: usize> {
    pub first: ArrayVec<u32, N>,
    pub count: usize,
}

/// What a record says of its weights beside those that a lent list takes: how many there are.
#[derive(Clone, Copy)]
pub struct WeightsSaid {
    pub count: usize,
}

/// The mode, by what is left behind the allowance and the budget: 0 by nothing, 1 by `1` alone.
fn mode(rest: Rest<'_>) -> Option<(u64, &[u8])>
    ensures { ReadsFields mode_said (fields_left rest.entry) (lines_left rest.entry) result }
{
    match rest {
        Rest::Lines(lines) => Some((0, lines)),
        Rest::Fields(fields) => {
            let ((), rest) = word_field(fields, b"1")?;
            let lines = rest.lines()?;
            Some((1, lines))
        }
    }
}

/// The record of the limits: `run`, allowance, budget, and `1` behind them where the allowance is a share.
pub fn run(text: &[u8]) -> Option<(Limits, &[u8])>
    ensures { ReadsLine run_said text.now result }
{
    let ((), rest) = word_field(text, b"run")?;
    let (allowance, rest) = number_field(rest.fields()?)?;
    let (budget, rest) = number_field(rest.fields()?)?;
    let (mode, lines) = mode(rest)?;
    let limits = Limits {
        allowance,
        budget,
        mode,
    };
    Some((limits, lines))
}

// No iterator goes over the fields: the lines behind the record would have to be got out of it at its end.
/// The record of the weights: `weights`, then each weight.
pub fn weights<const N: usize>(text: &[u8]) -> Option<(WeightsKept<N>, &[u8])>
    ensures { ReadsLine (weights_kept N) text.now result }
{
    let ((), mut rest) = word_field(text, b"weights")?;
    let mut first = ArrayVec::new();
    let mut count = 0;
    while let Some(fields) = rest.fields() {
        let (weight, behind) = number_field(fields)?;
        keep(&mut first, u32::try_from(weight).unwrap_or(u32::MAX));
        count += 1;
        rest = behind;
    }
    Some((WeightsKept { first, count }, rest.lines()?))
}

/// Stores a weight at its place, if the list reaches that far.
fn store(list: &mut [u32], place: usize, weight: u32)
    ensures { list.new ≡ set list.old place weight }
{
    if place < list.len() {
        list[place] = weight;
    }
}

// No code here calls it: it stays for its contract (docs/CONTRACTS.md), since N of `weights` is known before the program runs.
/// The record of the weights, in a list that is lent: as many as it has room for, those above `most` as `most`; all are counted.
pub fn weights_into<'a>(
    text: &'a [u8],
    most: u32,
    list: &mut [u32],
) -> Option<(WeightsSaid, &'a [u8])>
    ensures said { ReadsLine weights_counted text.now result }
    ensures long { length list.new ≡ length list.old }
    ensures stored { Stored text.now most list.old list.new }
{
    let ((), mut rest) = word_field(text, b"weights")?;
    let mut place = 0;
    while let Some(fields) = rest.fields() {
        let (weight, behind) = number_field(fields)?;
        store(
            list,
            place,
            u32::try_from(weight).unwrap_or(u32::MAX).min(most),
        );
        place += 1;
        rest = behind;
    }
    Some((WeightsSaid { count: place }, rest.lines()?))
}
