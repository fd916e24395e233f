//! How a record is made, and which ways it says remain. Here a leaf's record and a refined one are made; `told` reads the ways, `join` gives a record
//! the interval from its children's. Rests on `records`, Records and Growing; a leaf's figures come from `formula`.
#![tactic(auto)]

pub mod join;
pub mod told;

ghost use Rattle.std.specs.Prelude.{◌≡◌, [], ◌+◌, ◌<◌, ◌≤◌};
ghost use Rattle.std.proofs.Math.Option.{some};
ghost use Rattle.rules.specs.Rounding.{S};
ghost use Rattle.rules.specs.Table.{table};
ghost use Rattle.records.specs.Records.{tree_records, kind_code, fault_code};
ghost use Rattle.records.specs.Growing.{fresh_record, refined_record};
ghost use Rattle.records.specs.Safe.{SafeNode};
ghost use Rattle.clauses.specs.Leaves.{ways_of};
ghost use Rattle.node.specs.Told.{spot_with};

use chances::weights::Weights;
use clauses::Clauses;
use formula::leaf::ends;
use records::{INDEPENDENT_AND, INDEPENDENT_OR, LEAF, Node, SHANNON};
use rules::Kind;

/// The record of a leaf with these ways below a parent. Of the table only the weights count once the ways are known.
pub fn leaf_record(c: Clauses, weights: Weights, parent: usize) -> Node
    ensures value { result ≡ fresh_record (table weights.entry.list.now [] [])
        (spot_with c.entry.gone (ways_of c.entry)) parent }
    ensures low_fits { result.low ≤ S }
    ensures high_fits { result.high ≤ S }
{
    let e = ends(c, weights);
    let low = e.low;
    let high = e.high;
    Node {
        kind: LEAF,
        fault: 0,
        live: u64::from(e.open),
        parent,
        left: 0,
        waysa: c.numbers.low,
        waysb: c.numbers.high,
        present: c.gone.present,
        absent: c.gone.absent,
        out: c.gone.out,
        low: low.billionths,
        high: high.billionths,
        ownlow: low.billionths,
        ownhigh: high.billionths,
    }
}

// Two functions: one that gave both fields would be taken apart at its one call, and its clause would name both.
/// The code of a kind in a record.
#[tactic(auto, unfolding(records::specs::Records::kind_code))]
fn kind_code(k: Kind) -> u64
    ensures { result ≡ kind_code (some k) }
{
    match k {
        Kind::IndependentOr => INDEPENDENT_OR,
        Kind::IndependentAnd => INDEPENDENT_AND,
        Kind::Shannon(_) => SHANNON,
    }
}

/// The fault of a kind in a record.
#[tactic(auto, unfolding(records::specs::Records::fault_code))]
fn fault_code(k: Kind) -> u64
    ensures { result ≡ fault_code (some k) }
{
    match k {
        Kind::Shannon(f) => f,
        _ => 0,
    }
}

// `SafeNode` is a clause, for the reason that stands at `joined`.
/// The record of a leaf that is refined, with its left child in record `left`.
pub fn refined(x: &Node, k: Kind, left: usize) -> Node
    requires safe { SafeNode x.now }
    requires room { left + 1 < tree_records }
    ensures value { result ≡ refined_record x.now k left }
    ensures safe { SafeNode result }
{
    Node {
        kind: kind_code(k),
        fault: fault_code(k),
        live: 0,
        left,
        ..*x
    }
}
