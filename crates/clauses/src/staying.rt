//! What stays of ways: those that say nothing new are left out. Rests on `rules`, Leaf.
//! A table's ways are tested each against each. With a fault fixed in a lean list, only a way that lost it can outdo another: see `rules`, FixedLean.
ghost use Rattle.std.specs.Prelude.{◌≡◌, true, not};
ghost use Rattle.std.specs.Int.Bits.{bit_or};
ghost use Rattle.rules.specs.Leaf;
ghost use Rattle.rules.specs.Leaf.{remaining, minimal, Lean};
ghost use Rattle.rules.specs.Members.{In};
ghost use Rattle.rules.specs.declared.Way.{Way};
ghost use Rattle.clauses.specs.Leaves.{OneFault, all_of, none_gone, fix_more, ways_of, Becomes, Narrows, Of, Divided};

use super::Clauses;
use super::taking::without;
use checks::accepted::Rows;
use rules::Way;

/// The ways of a leaf by a fault: those that name it, the others, and a way that each of the others subsumes.
#[derive(Clone, Copy)]
pub struct ByFault<'a> {
    pub named: Clauses<'a>,
    pub others: Clauses<'a>,
    pub cover: Way,
}

/// The first way says no more than the second: the second names every fault of the first, in the same sense.
fn subsumes(u: Way, v: Way) -> bool
    ensures { result ≡ Leaf.subsumes u v }
{
    without(v.present, u.present) == 0 && without(v.absent, u.absent) == 0
}

/// Beside the first way the second says nothing new.
fn outdoes(u: Way, v: Way) -> bool
    ensures { result ≡ Leaf.outdoes u v }
{
    subsumes(u, v) && (!subsumes(v, u) || u.number < v.number)
}

// Over the rows as they are. Tried over the ways of `whole`, by their numbers: a sheet with budget 0, which is its roots alone, takes 1.3 of the time.
/// Some way of a table outdoes this one.
fn outdone(rows: Rows<'_>, v: Way) -> bool
    ensures { result ≡ Leaf.redundant (all_of rows.entry) v }
{
    rows.present.iter().zip(rows.absent).enumerate().any(|(number, (&present, &absent))| {
        let u = Way {
            number,
            present,
            absent,
        };
        outdoes(u, v)
    })
}

impl<'a> Clauses<'a> {
    /// What stays of a table's ways: none that another one outdoes.
    pub fn staying_rows(rows: Rows<'a>) -> Clauses<'a>
        ensures { Of rows.entry none_gone (minimal (all_of rows.entry)) result }
    {
        Clauses::whole(rows).keep(|v| !outdone(rows, v))
    }

    /// A way that each of the ways subsumes: it names what any of them names. A way, as the rules' `subsumes` takes two; its number does not count.
    fn cover(self) -> Way
        ensures { (v : Way) → In v (ways_of self.entry) → Leaf.subsumes v result ≡ true }
    {
        let mut present = 0;
        let mut absent = 0;
        for v in self.ways() {
            present |= v.present;
            absent |= v.absent;
        }
        Way {
            number: 0,
            present,
            absent,
        }
    }

    /// The ways by a fault, whose word is m.
    pub fn by_fault(self, m: u64) -> ByFault<'a>
        ensures { Divided self.entry m result }
    {
        let named = self.part(m);
        let others = self.minus(named);
        ByFault {
            named,
            others,
            cover: others.cover(),
        }
    }

    // Two words, as for `restrict` and in the rules' `remaining`; the one that is not 0 tells the sense: a flag beside one word would say the same, and
    // `Words` would be made for each call.
    // No type of lean ways: they are read back from records, and only the lent tree, which owns no fact, knows them lean.
    // Inlined: both children are made one behind the other, and a call for each would write the same leaf and its division out twice.
    /// What stays of the ways with one fault fixed besides, present (p) or absent (q). A way that lost the fault stays. Of
    /// those that did not name it each is left out that such a way subsumes: none, where it does not even subsume their cover.
    #[inline(always)]
    pub fn staying(self, d: ByFault<'a>, p: u64, q: u64) -> Clauses<'a>
        requires lean { Lean (ways_of self) }
        requires divided { Divided self (bit_or p q) d }
        requires one_fault { OneFault p q }
        ensures { Becomes self.entry (fix_more self.entry.gone p q) (minimal (remaining p q (ways_of self.entry))) result }
    {
        let mut shorter = d.named.restrict(p, q);
        let kept = d.others_beside(shorter);
        shorter.numbers = shorter.numbers.or(kept.numbers);
        shorter
    }
}

impl<'a> ByFault<'a> {
    // A loop over the shorter ways: few of them reach the `keep`, which goes over all others.
    /// The others that none of these ways subsumes. Mostly none of them subsumes even the cover of the others, and then all are kept.
    fn others_beside(self, shorter: Clauses<'a>) -> Clauses<'a>
        requires { (v : Way) → In v (ways_of self.others) → Leaf.subsumes v self.cover ≡ true }
        ensures { Narrows self.entry.others
            (Leaf.sift (λ v. not (Leaf.any (λ u. Leaf.subsumes u v) (ways_of shorter.entry))) (ways_of self.entry.others)) result }
    {
        let mut kept = self.others.numbers;
        for u in shorter.ways() {
            if subsumes(u, self.cover) {
                let beside = self.others.within(kept).keep(|v| !subsumes(u, v));
                kept = beside.numbers;
            }
        }
        self.others.within(kept)
    }
}
