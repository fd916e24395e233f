//! A run on a fresh tree, for a caller that wants its answer alone: the tree is the root leaf, so that 16 has nothing to test.
//! Rests on the module `opening` for the root leaf and on the module `runs` for the run.
ghost use Rattle.std.specs.Prelude.{◌≡◌, false};
ghost use Rattle.rules.specs.Tree.{leaf};
ghost use Rattle.rules.specs.Calls.{run_answer};
ghost use Rattle.rules.specs.Table.{table};

use super::opening::put_root;
use super::runs::run_good;
use checks::accepted::Table;
use checks::limits::check_mode;
use records::NO_NODES;
use rules::{Ended, Limits, Refusal};
use running::Task;

// Three lists, for they are judged here: what is no table yet has no type of its own.
/// What one run with the limits answers on the root leaf of a table.
#[tactic(auto, unfolding(records::specs::Records::no_nodes))]
pub fn run_afresh(
    weights: &[u32],
    present: &[u64],
    absent: &[u64],
    limits: Limits,
) -> Result<Ended, Refusal>
    ensures answer { result ≡ run_answer (table weights.now present.now absent.now)
        false leaf limits }
{
    check_mode(limits)?;
    let table = Table::accept(weights, present, absent)?;
    let task = Task::accept(limits)?;
    let mut tree = NO_NODES;
    put_root(table, &mut tree);
    Ok(run_good(table, &mut tree, task))
}
