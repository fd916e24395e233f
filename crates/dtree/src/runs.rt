//! A run: the refinements that its rule picks, at most as many as the budget, or the call is refused by the first number that applies.
//! Rests on `checks` for 3 and 9 to 15, on the module `sixteen` for 16, on `running` for the refinements and on `store`, by which they are put back.
ghost use Rattle.std.specs.Prelude.{◌≡◌, false, Ok};
ghost use Rattle.rules.specs.Run;
ghost use Rattle.rules.specs.Refusals.{first, mode_above, limit_refusals};
ghost use Rattle.rules.specs.Table.{table};
ghost use Rattle.checks.specs.Tables.{table_of};
ghost use Rattle.records.specs.Records.{Good};
ghost use Rattle.dtree.specs.Promises.{Running};

use super::opening::figures;
use super::sixteen::rebuild;
use checks::accepted::Table;
use checks::limits::check_mode;
use records::{NO_NODES, Node, Tree};
use rules::{Aim, Ended, Limits, Refusal};
use running::Task;
use running::run::run_on;
use store::{Lent, put_back};

// The record by value. Tried lent: the proof does not close, for of a lent record it is not known that its ends fit a word.
/// The figure of a record's interval: by distance low plus half the width, rounded down, and whatever the ends are at most the larger of them; by share 0.
#[tactic(auto, unfolding(rules::specs::Run::figure))]
fn figure(aim: Aim, n: Node) -> u64
    ensures { result ≡ Run.figure aim n.low n.high }
{
    match aim {
        Aim::Distance(_) => n.low + n.width() / 2,
        Aim::Share(_) => 0,
    }
}

// Clauses: `Good` for the reason at `run_on` (running); `mode` and `accepted` since `run_on` is promised for any mode and budget, so that a `Task` may
// bound the allowance alone.
/// The run itself, on a good tree, where neither 3 nor 14 nor 15 applies.
pub fn run_good(table: Table, tree: &mut Tree, task: Task) -> Ended
    requires mode { mode_above task.limits ≡ false }
    requires accepted { first (limit_refusals task.limits) ≡ 0 }
    requires good { Good (table_of table) tree.old }
    ensures promise { Running (table_of table.entry) tree.old task.limits tree.new (Ok result) }
{
    let stopped = run_on(table, tree, task);
    Ended {
        verdict: stopped.verdict,
        figures: figures(tree, stopped.made),
        figure: figure(task.aim(), tree.nodes[0]),
    }
}

/// Refines the widest open leaf, again and again, until the root is narrow enough, nothing is open, or no more may be made. Refused, the
/// tree is as it was.
#[tactic(auto, unfolding(records::specs::Records::no_nodes))]
pub fn run<T: Lent>(
    weights: &[u32],
    present: &[u64],
    absent: &[u64],
    tree: &mut T,
    limits: Limits,
) -> Result<Ended, Refusal>
    ensures promise { Running (table weights.now present.now absent.now)
        (T.tree tree.old) limits (T.tree tree.new) result }
{
    check_mode(limits)?;
    let table = Table::accept(weights, present, absent)?;
    let task = Task::accept(limits)?;
    let mut made = NO_NODES;
    let good = rebuild(table, tree, &mut made);
    Refusal::NotGood.test(!good)?;
    let ended = run_good(table, &mut made, task);
    put_back(tree, &made);
    Ok(ended)
}
