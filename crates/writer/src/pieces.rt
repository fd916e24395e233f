//! The bytes of a sheet, piece by piece, each behind the one before it.
//! Rests on the definitions of `rules`, Sheet, and on Laid's laid_out of the lists. A piece stands in two clauses, `Room` before and `Wrote` after:
//! a trait of pieces would need a type and an impl for each, and be no plainer.
ghost use Rattle.std.specs.Prelude.{◌≡◌, ◌++◌, length};
ghost use Rattle.rules.specs.Sheet.{little, bodies_start};
ghost use Rattle.rules.proofs.Laid.{head_part, contents_part, weights_part, bodies_part, laid_out};
ghost use Rattle.writer.specs.Given.{given};
ghost use Rattle.writer.specs.Pieces.{Room, Wrote};

use super::lists::{Accepted, Lists};
use super::output::Out;
use rules::{Entry, Words};

/// An entry of the contents: the number of a cue, the count of its ways, where its body starts.
fn put_entry(out: &mut Out, entry: Entry)
    requires { Room out.old (little 2 entry.cue ++ little 2 entry.ways ++ little 4 entry.start) }
    ensures { Wrote out.old (little 2 entry.cue ++ little 2 entry.ways ++ little 4 entry.start) out.new }
{
    out.put_little::<2>(u64::from(entry.cue));
    out.put_little::<2>(u64::from(entry.ways));
    out.put_little::<4>(u64::from(entry.start));
}

/// One way: its present word, its absent word.
fn put_way(out: &mut Out, way: Words)
    requires { Room out.old (little 8 way.present ++ little 8 way.absent) }
    ensures { Wrote out.old (little 8 way.present ++ little 8 way.absent) out.new }
{
    out.put_little::<8>(way.present);
    out.put_little::<8>(way.absent);
}

impl Lists<'_> {
    /// The head: faults, cues, allowance, budget, mode.
    #[tactic(auto, unfolding(rules::specs::Sheet::head_bytes))]
    fn put_head(&self, out: &mut Out)
        requires { Room out.old (head_part (given self.now)) }
        ensures { Wrote out.old (head_part (given self.now)) out.new }
    {
        out.put_little::<2>(self.weights.len() as u64);
        out.put_little::<2>(self.numbers.len() as u64);
        out.put_little::<4>(self.limits.allowance);
        out.put_little::<2>(self.limits.budget);
        out.put_little::<2>(self.limits.mode);
    }

    /// The weights.
    #[tactic(auto, unfolding(rules::specs::Sheet::weights_bytes))]
    fn put_weights(&self, out: &mut Out)
        requires { Room out.old (weights_part (given self.now)) }
        ensures { Wrote out.old (weights_part (given self.now)) out.new }
    {
        for &weight in self.weights {
            out.put_little::<4>(u64::from(weight));
        }
    }

    /// The bodies, which without gaps are one body of all the words.
    #[tactic(auto, unfolding(rules::specs::Sheet::body_bytes))]
    fn put_bodies(&self, out: &mut Out)
        requires { Room out.old (bodies_part (given self.now)) }
        ensures { Wrote out.old (bodies_part (given self.now)) out.new }
    {
        for (&present, &absent) in self.present.iter().zip(self.absent) {
            put_way(out, Words { present, absent });
        }
    }
}

impl Accepted<'_> {
    // As a sheet's head tells it (`sheet`, head.rt): that one counts from two numbers of 16 bits, over its weights' place, and bounds the place.
    /// Where the bodies start, after the head, the contents and the weights.
    #[tactic(auto, unfolding(rules::specs::Sheet::bodies_start, rules::specs::Sheet::weights_start))]
    pub(crate) fn bodies_start(&self) -> usize
        ensures { result ≡ bodies_start (length self.now.lists.numbers.now) (length self.now.lists.weights.now) }
    {
        12 + 8 * self.lists.numbers.len() + 4 * self.lists.weights.len()
    }

    /// The contents: an entry for each cue, whose bodies start behind the weights.
    #[tactic(auto, unfolding(rules::proofs::Laid::entries, rules::specs::Sheet::starts, rules::specs::Sheet::total))]
    fn put_contents(&self, out: &mut Out)
        requires { Room out.old (contents_part (given self.now.lists)) }
        ensures { Wrote out.old (contents_part (given self.now.lists)) out.new }
    {
        let mut start = self.bodies_start() as u32;
        for (&cue, &ways) in self.lists.numbers.iter().zip(self.lists.counts) {
            put_entry(out, Entry { cue, ways, start });
            start += 16 * u32::from(ways);
        }
    }

    /// The whole sheet: head, contents, weights, bodies.
    #[tactic(auto, unfolding(rules::proofs::Laid::laid_out))]
    pub(crate) fn put_sheet(&self, out: &mut Out)
        requires { Room out.old (laid_out (given self.now.lists)) }
        ensures { Wrote out.old (laid_out (given self.now.lists)) out.new }
    {
        self.lists.put_head(out);
        self.put_contents(out);
        self.lists.put_weights(out);
        self.lists.put_bodies(out);
    }
}
