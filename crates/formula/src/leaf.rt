//! A leaf's two ends and whether it is open, from its remaining ways. Rests on the definitions of `rules`, Leaf.
//! One loop picks the ways in number order: a way is kept if it names none of the faults already taken, which one word holds.
ghost use Rattle.std.specs.Prelude.{◌≡◌, List, [], ◌∷◌, ◌++◌, ◌+◌, min, leb, length};
ghost use Rattle.rules.specs.Rounding.{S};
ghost use Rattle.rules.specs.declared.Direction.TheVariants.{Up};
ghost use Rattle.rules.specs.Leaf;
ghost use Rattle.rules.specs.declared.Way.{Way};
ghost use Rattle.clauses.specs.Leaves.{ways_of};
ghost use Rattle.formula.specs.Leaves.{ends_of};
ghost use Rattle.formula.specs.Picking.{picked};

use super::{Ends, Picked};
use chances::rounding::Chance;
use chances::weights::Weights;
use clauses::Clauses;
use clauses::keeping::touches;
use clauses::taking::faults;
use rules::{Direction, S, Way};

/// The high end with one way more. At S it stays there, so that no further chance is worked out.
fn raised(high: Chance, v: Way, weights: Weights) -> Chance
    ensures { result ≡ min S (high + Leaf.chance Up weights.entry.list.now v) }
{
    if high == Chance::CERTAIN {
        return high;
    }
    let sum = high.billionths + weights.chance(v, Direction::Up).billionths;
    Chance {
        billionths: sum.min(S),
    }
}

/// One way more: it is kept if it names none of the faults held, and then its own are held too. Whatever ways were picked before, what is held
/// afterwards is just what the kept ones name, and both ends are those of a leaf with these ways.
fn pick(p: Picked, v: Way, weights: Weights) -> Picked
    ensures { (us : List Way) → p ≡ picked weights.entry.list.now us → result ≡ picked weights.entry.list.now (us ++ (v ∷ [])) }
{
    let high = raised(p.high, v, weights);
    if touches(p.held, v) {
        return Picked { high, ..p };
    }
    let low = weights.chance(v, Direction::Down);
    Picked {
        held: p.held | faults(v),
        low: p.low.either(low, Direction::Down),
        high,
    }
}

/// All ways of a leaf, picked one after the other.
fn pick_ways(c: Clauses, weights: Weights) -> Picked
    ensures { result ≡ picked weights.entry.list.now (ways_of c.entry) }
{
    let mut p = Picked {
        held: 0,
        low: Chance::NONE,
        high: Chance::NONE,
    };
    for v in c.ways() {
        p = pick(p, v, weights);
    }
    p
}

/// There are two ways or more.
fn several(c: Clauses) -> bool
    ensures { result ≡ leb 2 (length (ways_of c.entry)) }
{
    c.ways().nth(1).is_some()
}

// Ways and weights come apart, here and where a record is made: what asks for ways alone would else ask its callers for weights too.
/// Both ends of a leaf, and whether it is open: several ways, and low below high. A way that names no fault needs no test: with one, low is S.
pub fn ends(c: Clauses, weights: Weights) -> Ends
    ensures { result ≡ ends_of weights.entry.list.now (ways_of c.entry) }
{
    let p = pick_ways(c, weights);
    Ends {
        low: p.low,
        high: p.high,
        open: p.low < p.high && several(c),
    }
}
