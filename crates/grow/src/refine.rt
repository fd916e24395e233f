//! One refinement: the refined record, the records of its two leaves, and the intervals above. Rests on `records`, Growing.
//! Each record is made by `node`; the ways of the children are worked out from those of the leaf.
ghost use Rattle.std.specs.Prelude.{◌≡◌, ◌+◌, ◌<◌};
ghost use Rattle.rules.specs.Leaf.{Lean};
ghost use Rattle.records.specs.Records.{tree_records, record_in, record_ways};
ghost use Rattle.records.specs.Growing.{grown_at};
ghost use Rattle.records.specs.Safe.{SafeNode, Safe};
ghost use Rattle.checks.specs.Tables.{table_of};
ghost use Rattle.clauses.specs.Leaves.{ways_of};
ghost use Rattle.formula.specs.Leaves.{FaultFits};
ghost use Rattle.node.specs.Told.{gone_in, LeafWays};
ghost use Rattle.grow.specs.Branched.{Branched};

use super::raise::raise;
use chances::weights::Weights;
use checks::accepted::Table;
use clauses::Clauses;
use formula::child::children;
use node::{leaf_record, refined};
use records::{Node, Tree};
use rules::Kind;

/// The records that a refinement of a leaf writes: its own and those of its two leaves.
#[derive(Clone, Copy)]
struct Branch {
    node: Node,
    left: Node,
    right: Node,
}

// `SafeNode` is a clause, for the reason that stands at `joined` (node).
/// The records that a refinement of the leaf x in record j writes, where c are its ways and its left leaf goes to record `next`.
fn branch_of(weights: Weights, x: &Node, c: Clauses, kind: Kind, j: usize, next: usize) -> Branch
    requires gone { c.gone ≡ gone_in x.now }
    requires lean { Lean (ways_of c) }
    requires fault_fits { FaultFits kind }
    requires safe { SafeNode x.now }
    requires inside { j < tree_records }
    requires room { next + 1 < tree_records }
    ensures { Branched weights.entry.list.now x.now (ways_of c.entry) kind j next result }
{
    let node = refined(x, kind, next);
    let leaves = children(c, kind);
    let left = leaf_record(leaves.left, weights, j);
    let right = leaf_record(leaves.right, weights, j);
    Branch { node, left, right }
}

// The facts stand one by one: a struct that holds the lent tree would owe them at each of four writes, and they are shown once, behind the last. Nor
// is the index of a type with its bound: a link or a search gives a plain one, and such a value would be made for each call.
/// Refines the leaf in record j, where c are its ways: its leaves go to the next two records, and the intervals from j up to the root are joined
/// anew.
pub fn grow(table: Table, tree: &mut Tree, c: Clauses, kind: Kind, j: usize)
    requires leaf_ways { LeafWays table.present.now table.absent.now (record_in tree.old.nodes j) c }
    requires lean { Lean (record_ways (table_of table) (record_in tree.old.nodes j)) }
    requires fault_fits { FaultFits kind }
    requires safe { Safe tree.old.nodes }
    requires inside { j < tree_records }
    requires room { tree.old.used + 1 < tree_records }
    ensures grown { tree.new.nodes ≡ grown_at (table_of table.entry) tree.old.nodes tree.old.used j kind }
    ensures two_more { tree.new.used ≡ tree.old.used + 2 }
    ensures safe { Safe tree.new.nodes }
{
    let weights = Weights::from(table);
    let next = tree.used;
    let b = branch_of(weights, &tree.nodes[j], c, kind, j, next);
    tree.nodes[j] = b.node;
    tree.nodes[next] = b.left;
    tree.nodes[next + 1] = b.right;
    tree.used = next + 2;
    raise(weights, tree, j);
}
