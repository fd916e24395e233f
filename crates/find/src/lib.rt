//! The leaf that a hand refinement names, found by the links of the records, and which of 17 to 20 refuses it.
//! Rests on the records of `records`, whose ways `node` reads, and on `formula`.
//! specs/ has the refusals told from records, proofs/ that on a layout they are the rules'.
#![tactic(auto)]

ghost use Rattle.std.specs.Prelude.{◌≡◌, ◌<◌, IfSome, IfOk};
ghost use Rattle.rules.specs.Refusals.{answered};
ghost use Rattle.records.specs.Records.{tree_records};
ghost use Rattle.records.specs.Safe.{Safe};
ghost use Rattle.formula.specs.Leaves.{FaultFits};
ghost use Rattle.find.specs.Finds.{found, reached_of, record_refusals, word_table, Tells};

use checks::accepted::Rows;
use formula::child::possible;
use node::told::ways_of;
use records::{Node, Tree};
use rules::{Kind, MOST_STEPS, Refusal};

// `Safe` is a clause: a view that carries it would be made for the one call and end with it, since the tree is written next. `Links` (pick) would ask
// for more, links in order, than a step down needs.
/// The record of the place that the bytes name, going down from the root's record by the left links.
fn find(tree: &Tree, place: &[u8]) -> Option<usize>
    requires { Safe tree.now.nodes }
    ensures reached { result ≡ reached_of (found tree.now.nodes place.now) }
    ensures inside { IfSome result (λ j. j < tree_records) }
{
    let mut at = 0;
    // A step is a byte, as C lends it. An enum of two sides would be made of it here and be matched here alone.
    for &side in place {
        let left = tree.nodes[at].left_child()?;
        at = match side {
            0 => left,
            // The right child's record follows the left one's.
            1 => left + 1,
            _ => return None,
        };
    }
    Some(at)
}

/// A refinement of the node in this record is refused by 17 to 20, or let pass.
#[tactic(auto, unfolding(rules::specs::Refusals::answered, crate::specs::Finds::record_refusals))]
fn check_leaf(rows: Rows, tree: &Tree, n: &Node, kind: Kind) -> Result<(), Refusal>
    ensures answer { result ≡ answered (record_refusals (word_table rows.entry.present.now rows.entry.absent.now) tree.now.used kind n.now) tt }
    ensures fault { IfOk result (λ _. FaultFits kind) }
{
    Refusal::NoLeaf.test(n.left_child().is_some())?;
    Refusal::Closed.test(!n.is_live())?;
    Refusal::Full.test(tree.is_full())?;
    Refusal::Impossible.test(!possible(kind, ways_of(rows, n)))
}

/// The record of the leaf that the bytes name, if the refinement can be made there.
#[tactic(auto, unfolding(rules::specs::Refusals::answered, crate::specs::Finds::told_refusals, crate::specs::Finds::refusals_at, crate::specs::Finds::Tells))]
pub fn leaf_at(rows: Rows, tree: &Tree, place: &[u8], kind: Kind) -> Result<usize, Refusal>
    requires { Safe tree.now.nodes }
    ensures { Tells (word_table rows.entry.present.now rows.entry.absent.now) tree.now place.now kind result }
{
    Refusal::NoLeaf.test(MOST_STEPS < place.len())?;
    let leaf = find(tree, place).ok_or(Refusal::NoLeaf)?;
    check_leaf(rows, tree, &tree.nodes[leaf], kind)?;
    Ok(leaf)
}
