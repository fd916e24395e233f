//! The intervals from a record up to the root, joined anew by the links to the parents. Rests on `records`, Growing.
//! A leaf that can be refined lies above level 64, so that 64 records are enough.
ghost use Rattle.std.specs.Prelude.{◌≡◌, ◌<◌};
ghost use Rattle.records.specs.Records.{tree_records};
ghost use Rattle.records.specs.Growing;
ghost use Rattle.records.specs.Safe.{Safe};

use chances::weights::Weights;
use node::join::joined;
use records::Tree;
use rules::MOST_STEPS;

// `Safe` and the bound of j are clauses, for the reasons that stand at `grow`.
/// Joins the intervals from record j up to the root anew.
pub fn raise(weights: Weights, tree: &mut Tree, j: usize)
    requires safe { Safe tree.old.nodes }
    requires inside { j < tree_records }
    ensures raised { tree.new.nodes ≡ Growing.raise weights.entry.list.now 64 tree.old.nodes j }
    ensures same { tree.new.used ≡ tree.old.used }
    ensures safe { Safe tree.new.nodes }
{
    // By the links to the parents: the turns are counted, the records are not.
    let mut i = j;
    for _ in 0..MOST_STEPS {
        let x = tree.nodes[i];
        let left = tree.nodes[x.left];
        let right = tree.nodes[x.left + 1];
        let n = joined(weights, &x, &left, &right);
        tree.nodes[i] = n;
        if i == 0 {
            return;
        }
        i = x.parent;
    }
}
