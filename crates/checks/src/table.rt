//! The tests on a table handed over directly, 9 to 13. Rests on the definitions of `rules`, Table and Refusals.
//! A table that passes them is one value from then on (`accepted`): few faults, light weights, few ways, words in pairs.
ghost use Rattle.std.specs.Prelude.{◌≡◌};
ghost use Rattle.rules.specs.Refusals.{answered, table_refusals};
ghost use Rattle.rules.specs.Table.{table};
ghost use Rattle.checks.specs.Tables.{Accepting};

use super::accepted::Table;
use super::lists::{faults_outside, overweight};
use super::ways::{check_ways, words_amiss};
use rules::Refusal;

/// 9 to 13, each test over the whole input before the next.
fn check_table(weights: &[u32], present: &[u64], absent: &[u64]) -> Result<(), Refusal>
    ensures { result ≡ answered (table_refusals (table weights.now present.now absent.now)) tt }
{
    Refusal::FaultsOutside.test(faults_outside(weights.len()))?;
    Refusal::Overweight.test(overweight(weights))?;
    Refusal::WordsAmiss.test(words_amiss(present, absent))?;
    check_ways(weights.len(), present, absent)
}

impl<'a> Table<'a> {
    /// The table that the lists give, or why it is refused.
    pub fn accept(
        weights: &'a [u32],
        present: &'a [u64],
        absent: &'a [u64],
    ) -> Result<Table<'a>, Refusal>
        ensures { Accepting weights.now present.now absent.now result }
    {
        check_table(weights, present, absent)?;
        Ok(Table {
            weights,
            present,
            absent,
        })
    }
}
