//! One turn of a run: the first reason to stop that applies, or the refinement to make. Rests on `rules`, Run.
//! The leaf comes from the search of `pick`, its ways from its record (`node`), its refinement from `grow`.
ghost use Rattle.std.specs.Prelude.{◌≡◌, ◌+◌, ◌<◌};
ghost use Rattle.rules.specs.Run;
ghost use Rattle.rules.specs.Run.{aim_of, choice};
ghost use Rattle.rules.specs.Leaf.{Lean};
ghost use Rattle.records.specs.Records.{tree_records, record_in, record_ways};
ghost use Rattle.records.specs.Safe.{Safe};
ghost use Rattle.checks.specs.Tables.{table_of};
ghost use Rattle.clauses.specs.Leaves.{ways_of};
ghost use Rattle.formula.specs.Leaves.{FaultFits};
ghost use Rattle.running.specs.Decided.{decided, ByRule};

use super::Task;
use checks::accepted::Table;
use clauses::Clauses;
use formula::choice::most_named;
use formula::common::common_part;
use formula::group::falls_apart;
use grow::refine::grow;
use node::told::ways_of;
use pick::leaves::Links;
use pick::next_leaf;
use records::{Node, Tree};
use rules::{Aim, Kind, S, Verdict};
use std::ops::ControlFlow;

/// What a run does at a leaf of the table with these ways.
#[tactic(auto, unfolding(rules::specs::Run::choice, formula::specs::Leaves::FaultFits))]
fn choose(table: Table, c: Clauses) -> Kind
    ensures choice { result ≡ choice table.entry.weights.now (ways_of c.entry) }
    ensures fault { FaultFits result }
{
    if falls_apart(c) {
        return Kind::IndependentOr;
    }
    if common_part(c) != 0 {
        return Kind::IndependentAnd;
    }
    Kind::Shannon(most_named(table.weights.len(), c) as u64)
}

impl Task {
    /// The record's interval is as narrow as is aimed at, whatever its ends: by distance crossed ones have no width, and by share no product of 128 bits wraps.
    #[tactic(auto, unfolding(rules::specs::Run::narrow))]
    fn narrow(self, n: &Node) -> bool
        ensures { result ≡ Run.narrow (aim_of self.limits) n.now.low n.now.high }
    {
        match self.aim() {
            Aim::Distance(e) => n.width() <= 2 * e,
            Aim::Share(e) => {
                u128::from(S - e) * u128::from(n.high) <= u128::from(S + e) * u128::from(n.low)
            }
        }
    }
}

/// Met, done, full and spent, in this order; otherwise the leaf that the search finds. Where the run is met, nothing is searched.
#[tactic(auto, using(crate::proofs::Turns::full_test), unfolding(crate::specs::Decided::decided, crate::specs::Decided::when_wide, crate::specs::Decided::with_leaf))]
pub fn decide(task: Task, links: Links, made: u64) -> ControlFlow<Verdict, usize>
    ensures { result ≡ decided (aim_of task.limits) links.entry.tree.now made task.limits.budget }
{
    let tree = links.tree;
    if task.narrow(&tree.nodes[0]) {
        return ControlFlow::Break(Verdict::Met);
    }
    let Some(found) = next_leaf(links) else {
        return ControlFlow::Break(Verdict::Done);
    };
    if tree.is_full() {
        return ControlFlow::Break(Verdict::Full);
    }
    if made == task.limits.budget {
        return ControlFlow::Break(Verdict::Spent);
    }
    ControlFlow::Continue(found.at)
}

// `Safe` and the bound of j are clauses, for the reasons that stand at `grow`.
/// Refines the leaf in record j as the rule says.
pub fn refine_by_rule(table: Table, tree: &mut Tree, j: usize)
    requires safe { Safe tree.old.nodes }
    requires inside { j < tree_records }
    requires room { tree.old.used + 1 < tree_records }
    requires lean { Lean (record_ways (table_of table) (record_in tree.old.nodes j)) }
    ensures { ByRule (table_of table.entry) tree.old j tree.new }
{
    let c = ways_of(table.rows(), &tree.nodes[j]);
    let kind = choose(table, c);
    grow(table, tree, c, kind, j);
}
