//! An inner record's interval, from its own as a leaf and from its children's records. Rests on `rules`, Tree, and `records`, Growing.
ghost use Rattle.std.specs.Prelude.{◌≡◌, ◌≤◌};
ghost use Rattle.rules.specs.Rounding.{S};
ghost use Rattle.rules.specs.Tree;
ghost use Rattle.records.specs.Growing;
ghost use Rattle.records.specs.Safe.{SafeNode};

use chances::rounding::Chance;
use chances::weights::Weights;
use records::Node;
use rules::{Direction, Kind};

/// The end that a node of this kind has from those of its children.
#[tactic(auto, unfolding(rules::specs::Tree::combine))]
fn combined(
    kind: Kind,
    weights: Weights,
    left: Chance,
    right: Chance,
    direction: Direction,
) -> Chance
    ensures { result ≡ Tree.combine kind direction weights.entry.list.now left right }
{
    match kind {
        Kind::IndependentOr => left.either(right, direction),
        Kind::IndependentAnd => left.times(right, direction),
        Kind::Shannon(fault) => weights.of(fault as usize).mean(left, right, direction),
    }
}

/// The end of the overlap of two intervals: the larger of two low ends, the smaller of two high ends.
fn overlap(own: Chance, other: Chance, direction: Direction) -> Chance
    ensures { result ≡ Tree.overlap direction own other }
{
    match direction {
        Direction::Down => own.max(other),
        Direction::Up => own.min(other),
    }
}

// Both ends by one function: a type of intervals would be no plainer, since the ends of a record may be crossed. The words of the records come as they
// are: six chances would be made at two calls, and here three.
/// The end of an inner record's interval, from its own as a leaf and from those of its children.
fn joined_end(
    kind: Kind,
    weights: Weights,
    own: u64,
    left: u64,
    right: u64,
    direction: Direction,
) -> Chance
    requires own_fits { own ≤ S }
    requires left_fits { left ≤ S }
    requires right_fits { right ≤ S }
    ensures { result ≡ Tree.overlap direction own (Tree.combine kind direction weights.entry.list.now left right) }
{
    let left = Chance { billionths: left };
    let right = Chance { billionths: right };
    let own = Chance { billionths: own };
    overlap(
        own,
        combined(kind, weights, left, right, direction),
        direction,
    )
}

// `SafeNode` is a clause: the records come from a tree that C lends as plain numbers, and the result is written there at once, so that a type that
// holds the fact would be made and taken apart at the one call.
/// The record x with its interval joined from its own as a leaf and from its children's records.
#[tactic(auto, unfolding(records::specs::Growing::joined))]
pub fn joined(weights: Weights, x: &Node, left: &Node, right: &Node) -> Node
    requires safe { SafeNode x.now }
    requires left_safe { SafeNode left.now }
    requires right_safe { SafeNode right.now }
    ensures value { result ≡ Growing.joined weights.entry.list.now x.now left.now right.now }
    ensures safe { SafeNode result }
{
    let kind = x.kind();
    let low = joined_end(
        kind,
        weights,
        x.ownlow,
        left.low,
        right.low,
        Direction::Down,
    );
    let high = joined_end(
        kind,
        weights,
        x.ownhigh,
        left.high,
        right.high,
        Direction::Up,
    );
    Node {
        low: low.billionths,
        high: high.billionths,
        ..*x
    }
}
