//! The search for the page that draws the tree: at which position the widest open leaf stands in lent records, whatever they hold (RULES 10).
//! Rests on the records of `records`. specs/ has the search as a definition and what it finds; proofs/ what that says of a tree.
#![tactic(auto)]

ghost use Rattle.std.specs.Prelude.{◌≡◌};
ghost use Rattle.page.specs.Widest.{counting, widest_of, WidestLaw};

use records::{Found, Node};

// As `open_leaf` (pick) but for the test, which is all that either says: one function would be handed it.
/// What the record n at position `at` is to the search: itself, if it is marked as an open leaf and has its low below its high.
#[tactic(auto, using(crate::proofs::Counted::in_order), unfolding(crate::specs::Widest::counting))]
fn counting(at: usize, n: &Node) -> Option<Found>
    ensures { result ≡ counting (at, n.now) }
{
    (n.is_open_leaf() && n.low < n.high).then(|| Found {
        at,
        width: n.width(),
    })
}

/// Where the widest open leaf stands in lent records, the first of equally wide ones, if there is one.
pub fn widest(records: &[Node]) -> Option<usize>
    ensures answer { result ≡ widest_of records.now }
    ensures law { WidestLaw records.now result }
{
    records
        .iter()
        .enumerate()
        .filter_map(|(at, n)| counting(at, n))
        .reduce(Found::wider)
        .map(|best| best.at)
}
