//! The run itself: one refinement per turn until a turn says stop. Rests on `rules`, Run.
//! The tree is refined where it is.
ghost use Rattle.checks.specs.Tables.{table_of};
ghost use Rattle.records.specs.Records.{Good, history};
ghost use Rattle.running.specs.Ran.{Ran};

use super::turn::{decide, refine_by_rule};
use super::{Stopped, Task};
use checks::accepted::Table;
use pick::leaves::Links;
use records::Tree;
use std::ops::ControlFlow;

// A struct that holds the lent tree would owe its fact at each write through it, and `grow` writes three records one by one: no plainer.
/// A run on a tree that this table and some series gave.
pub fn run_on(table: Table, tree: &mut Tree, task: Task) -> Stopped
    requires { Good (table_of table) tree.old }
    ensures { Ran (table_of table.entry) (history tree.old) task.limits tree.new result }
{
    // A range of counts would need an answer behind the loop, where no run comes: no plainer.
    let mut made = 0;
    loop {
        match decide(task, Links { tree }, made) {
            ControlFlow::Break(verdict) => return Stopped { verdict, made },
            ControlFlow::Continue(leaf) => {
                refine_by_rule(table, tree, leaf);
                made += 1;
            }
        }
    }
}
