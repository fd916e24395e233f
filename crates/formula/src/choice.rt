//! The fault that is named in most ways, the lowest number if several are: where a run fixes a fault, it fixes this one.
//! The counts of all faults are made in one pass over the ways, by their set bits. Rests on the definitions of `rules`, Run.
ghost use Rattle.std.specs.Prelude.{◌≡◌, ℕ, ◌+◌, ◌<◌, ◌≤◌, get_or};
ghost use Rattle.rules.specs.Table.{bit, indicator};
ghost use Rattle.rules.specs.Run.{named, most_named};
ghost use Rattle.clauses.specs.Leaves.{ways_of};

use chances::bits::Bits;
use clauses::Clauses;
use clauses::taking::faults;
use rules::MOST_FAULTS;

/// Adds one to the count of each fault of the word.
fn count_faults(counts: &mut [u64; MOST_FAULTS], word: u64)
    requires { (f : ℕ) → f < 64 → get_or counts.old f 0 ≤ 128 }
    ensures { (f : ℕ) → f < 64 → get_or counts.new f 0 ≡ get_or counts.old f 0 + indicator (bit f word) }
{
    for f in Bits::of(word) {
        counts[f] += 1;
    }
}

/// In how many of the ways each fault is named: every way adds one to the count of each fault that it names.
fn counts(c: Clauses) -> [u64; MOST_FAULTS]
    ensures { (f : ℕ) → f < 64 → get_or result f 0 ≡ named f (ways_of c.entry) }
{
    let mut counts = [0; MOST_FAULTS];
    for v in c.ways() {
        count_faults(&mut counts, faults(v));
    }
    counts
}

// Tried as a `fold` over the range: its closure has to take any two numbers, and what indexes the counts has to be below 64. A `reduce` over the counts
// with their places would carry pairs and end in a default for none: no plainer.
/// Of the faults below n, the one named in most ways. Only a larger count replaces one, so that ties go to the lower number.
pub fn most_named(n: usize, c: Clauses) -> usize
    requires { n ≤ 64 }
    ensures { result ≡ most_named n (ways_of c.entry) }
{
    let counts = counts(c);
    let mut best = 0;
    for f in 0..n {
        if counts[best] < counts[f] {
            best = f;
        }
    }
    best
}
