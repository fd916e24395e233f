//! A hand refinement: the leaf named is refined as asked, or the call is refused by the first number that applies.
//! Rests on `checks` for 9 to 13, on the module `sixteen` for 16, on `find` for 17 to 20, on `node` for the leaf's ways, on `grow` for the refinement
//! and on `store`, by which it is put back.
ghost use Rattle.rules.specs.Table.{table};
ghost use Rattle.dtree.specs.Promises.{Refining};

use super::opening::figures;
use super::sixteen::rebuild;
use checks::accepted::Table;
use find::leaf_at;
use grow::refine::grow;
use node::told::ways_of;
use records::NO_NODES;
use rules::{Figures, Kind, Refusal};
use store::{Lent, put_back};

// Place and kind come apart, as C hands them over: one refinement is one call.
/// Refines one leaf. The place is a list of steps from the root, 0 for left and 1 for right. Refused, the tree is as it was.
#[tactic(auto, unfolding(records::specs::Records::no_nodes))]
pub fn refine<T: Lent>(
    weights: &[u32],
    present: &[u64],
    absent: &[u64],
    tree: &mut T,
    place: &[u8],
    kind: Kind,
) -> Result<Figures, Refusal>
    ensures promise { Refining (table weights.now present.now absent.now)
        (T.tree tree.old) place.now kind (T.tree tree.new) result }
{
    let table = Table::accept(weights, present, absent)?;
    let mut made = NO_NODES;
    let good = rebuild(table, tree, &mut made);
    Refusal::NotGood.test(!good)?;
    let rows = table.rows();
    let leaf = leaf_at(rows, &made, place, kind)?;
    let c = ways_of(rows, &made.nodes[leaf]);
    grow(table, &mut made, c, kind, leaf);
    put_back(tree, &made);
    Ok(figures(&made, 1))
}
