//! The ways of the two children of a leaf that is refined, and whether it can be refined so. Rests on the definitions of `rules`, Tree.
//! By the kind: `group` splits by independence, `common` takes the common part out, and here a fault is fixed.
ghost use Rattle.std.specs.Prelude.{◌≡◌, true, ◌<◌};
ghost use Rattle.rules.specs.Table;
ghost use Rattle.rules.specs.Table.{bit};
ghost use Rattle.rules.specs.Leaf.{Lean};
ghost use Rattle.rules.specs.Tree;
ghost use Rattle.clauses.specs.Leaves.{ways_of};
ghost use Rattle.formula.specs.Leaves.{FaultFits, Parts};

use super::Children;
use super::common::{common_part, take_out};
use super::group::{falls_apart, other_ways};
use chances::bits::has;
use clauses::Clauses;
use clauses::sets::one_bit;
use clauses::taking::faults;
use rules::{Kind, Way};

// `FaultFits` is a clause: a `Kind` is also what C asks for, with any fault, and `possible` finds whether it fits.
/// The ways of both children. Under a fault the left child has it present, the right absent.
pub fn children<'a>(c: Clauses<'a>, k: Kind) -> Children<'a>
    requires fault_fits { FaultFits k }
    requires lean { Lean (ways_of c) }
    ensures { Parts c.entry k result }
{
    match k {
        Kind::IndependentOr => {
            let right = other_ways(c);
            let left = c.minus(right);
            Children { left, right }
        }
        Kind::IndependentAnd => take_out(c),
        Kind::Shannon(f) => {
            let b = one_bit(f as usize);
            let d = c.by_fault(b);
            let left = c.staying(d, b, 0);
            let right = c.staying(d, 0, b);
            Children { left, right }
        }
    }
}

/// The way names the fault. No way names one from 64 on, where its words have no bits.
fn names(f: usize, v: Way) -> bool
    ensures answer { result ≡ bit f (Table.faults v) }
    ensures fits { result ≡ true → f < 64 }
{
    has(faults(v), f)
}

/// The fault occurs in one of the ways.
pub fn occurs(f: usize, c: Clauses) -> bool
    ensures answer { result ≡ Tree.occurs f (ways_of c.entry) }
    ensures fits { result ≡ true → f < 64 }
{
    c.ways().any(|v| names(f, v))
}

/// A refinement of this kind can be made: the ways fall apart, they have a common part, or the fault occurs in them. Then `children` takes the kind.
#[tactic(auto, unfolding(rules::specs::Tree::possible, crate::specs::Leaves::FaultFits))]
pub fn possible(k: Kind, c: Clauses) -> bool
    ensures answer { result ≡ Tree.possible k (ways_of c.entry) }
    ensures fits { result ≡ true → FaultFits k }
{
    match k {
        Kind::IndependentOr => falls_apart(c),
        Kind::IndependentAnd => common_part(c) != 0,
        Kind::Shannon(f) => occurs(f as usize, c),
    }
}
