//! Which leaf a run refines next: the widest open one, the leftmost if several are as wide.
//! Rests on the records of `records`. specs/ has the search as a definition, proofs/ that on a layout it finds the rules' next leaf.
#![tactic(auto)]

pub mod leaves;

ghost use Rattle.std.specs.Prelude.{◌≡◌};
ghost use Rattle.pick.specs.Picks.{own_found, pick_of};

use leaves::Links;
use records::{Found, Node};

/// What the leaf n in record i is to the search: itself, if it is open.
#[tactic(auto, unfolding(crate::specs::Picks::own_found))]
fn open_leaf(i: usize, n: &Node) -> Option<Found>
    ensures { result ≡ own_found i n.now }
{
    n.is_live().then(|| Found {
        at: i,
        width: n.width(),
    })
}

/// The leftmost of the widest open leaves of a tree whose links are in order.
pub fn next_leaf(links: Links) -> Option<Found>
    ensures { result ≡ pick_of links.entry.tree.now.nodes }
{
    links
        .leaves()
        .filter_map(|(i, n)| open_leaf(i, n))
        .reduce(Found::wider)
}
