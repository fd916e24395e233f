//! The common part of a leaf's ways, as a word of faults, and the ways of the children once it is taken out. Rests on `rules`, Common and Tree.
//! Mostly two ways settle that nothing is common, so the loop looks no further than that, where `try_fold` would hand both words on in an `Option`: no plainer.
ghost use Rattle.std.specs.Prelude.{◌≡◌};
ghost use Rattle.rules.specs.Common;
ghost use Rattle.rules.specs.declared.Kind.TheVariants.{IndependentAnd};
ghost use Rattle.clauses.specs.Leaves.{ways_of};
ghost use Rattle.formula.specs.Leaves.{Parts};

use super::Children;
use clauses::Clauses;
use clauses::taking::faults_besides;

/// The faults that all ways name in the same sense: those named present in one word, those named absent in another, until both are empty.
pub fn common_part(c: Clauses) -> u64
    ensures { result ≡ Common.shared (ways_of c.entry) }
{
    let mut ways = c.ways();
    let Some(first) = ways.next() else {
        return 0;
    };
    let mut p = first.present;
    let mut q = first.absent;
    for v in ways {
        if p | q == 0 {
            return 0;
        }
        p &= v.present;
        q &= v.absent;
    }
    p | q
}

/// The ways of both children once the common part is taken out: the first way without what it names besides, and all ways without the common part.
pub fn take_out<'a>(c: Clauses<'a>) -> Children<'a>
    ensures { Parts c.entry IndependentAnd result }
{
    let Some(v) = c.ways().next() else {
        return Children { left: c, right: c };
    };
    let m = common_part(c);
    let left = c.alone(v.number).leaving_out(faults_besides(v, m));
    let right = c.leaving_out(m);
    Children { left, right }
}
