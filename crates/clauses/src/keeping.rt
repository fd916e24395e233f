//! The ways of a leaf that pass a test: what remains of them with more faults fixed, and those that a word of faults touches.
//! Rests on `rules`, Leaf and Group. Only the numbers are kept, so no way is copied.
ghost use Rattle.std.specs.Prelude.{◌≡◌, Bool, true, not, ◌<◌, eqb};
ghost use Rattle.rules.specs.Leaf;
ghost use Rattle.rules.specs.Leaf.{sift, has_number, remaining, drop_all};
ghost use Rattle.rules.specs.Group;
ghost use Rattle.rules.specs.declared.Way.{Way};
ghost use Rattle.clauses.specs.Numbers.{is_in};
ghost use Rattle.clauses.specs.Leaves.{all_of, none_gone, fix_more, out_more, ways_of, Becomes, Narrows, Of};

use super::Clauses;
use super::lost::Gone;
use super::sets::Numbers;
use super::taking::faults;
use checks::accepted::Rows;
use rules::Way;

/// A fault fixed present that the way names absent, or fixed absent that it names present.
fn contradicted(present: u64, absent: u64, v: Way) -> bool
    ensures { result ≡ Leaf.contradicted present absent v }
{
    (v.present & absent) | (v.absent & present) != 0
}

/// The way names one of the faults of the word.
pub fn touches(m: u64, v: Way) -> bool
    ensures { result ≡ Group.touches m v }
{
    m & faults(v) != 0
}

impl<'a> Clauses<'a> {
    /// All ways of a table.
    pub fn whole(rows: Rows<'a>) -> Clauses<'a>
        ensures { Of rows.entry none_gone (all_of rows.entry) result }
    {
        Clauses {
            rows,
            numbers: Numbers::below(rows.present.len()),
            gone: Gone::NONE,
        }
    }

    /// What remains of the ways of a table whose numbers are in the set, with these faults fixed and left out.
    pub fn of(rows: Rows<'a>, numbers: Numbers, gone: Gone) -> Clauses<'a>
        ensures { Of rows.entry gone
            (drop_all gone.out (remaining gone.present gone.absent (Leaf.select (is_in numbers) (all_of rows.entry)))) result }
    {
        Clauses::whole(rows)
            .within(numbers)
            .restrict(gone.present, gone.absent)
            .leaving_out(gone.out)
    }

    /// The ways with a number of the set.
    pub fn within(mut self, numbers: Numbers) -> Clauses<'a>
        ensures { Narrows self.entry (sift (λ v. is_in numbers v.number) (ways_of self.entry)) result }
    {
        self.numbers = self.numbers.and(numbers);
        self
    }

    /// The way with this number by itself.
    pub fn alone(self, i: usize) -> Clauses<'a>
        requires { i < 128 }
        ensures { Narrows self.entry (sift (λ v. eqb v.number i) (ways_of self.entry)) result }
    {
        self.within(Numbers::one(i))
    }

    /// The ways whose numbers the other leaf does not have.
    pub fn minus(self, other: Clauses) -> Clauses<'a>
        ensures { Narrows self.entry
            (sift (λ v. not (has_number (ways_of other.entry) v.number)) (ways_of self.entry)) result }
    {
        self.within(self.numbers.minus(other.numbers))
    }

    /// The ways that pass the test.
    pub fn keep<F: Fn(Way) -> bool>(self, test: F) -> Clauses<'a>
        requires { F.IsAlwaysCallable test }
        ensures { (f : Way → Bool) → ((v : Way) (b : Bool) → F.post test v b → b ≡ f v)
            → Narrows self.entry (sift f (ways_of self.entry)) result }
    {
        let mut kept = self.numbers;
        for v in self.ways() {
            if !test(v) {
                kept = kept.without(v.number);
            }
        }
        self.within(kept)
    }

    /// The ways that the word touches.
    pub fn part(self, m: u64) -> Clauses<'a>
        ensures { Narrows self.entry (Group.part true m (ways_of self.entry)) result }
    {
        self.keep(|v| touches(m, v))
    }

    /// What remains of the ways with more faults fixed, present (p) and absent (q).
    pub fn restrict(self, p: u64, q: u64) -> Clauses<'a>
        ensures { Becomes self.entry (fix_more self.entry.gone p q) (remaining p q (ways_of self.entry)) result }
    {
        let mut kept = self.keep(|v| !contradicted(p, q, v));
        kept.gone = kept.gone.fixing(p, q);
        kept
    }

    /// The ways without the faults of a word, which are left out.
    pub fn leaving_out(mut self, m: u64) -> Clauses<'a>
        ensures { Becomes self.entry (out_more self.entry.gone m) (drop_all m (ways_of self.entry)) result }
    {
        self.gone = self.gone.leaving_out(m);
        self
    }
}
