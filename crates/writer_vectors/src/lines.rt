//! Printed lines: numbers, and a hash for what is too long to print. Rests on the answers of `rules`.
use output::Output;
use rules::{Entry, Head, Limits, MOST_FAULTS, MOST_WAYS, Refusal};
use std::io::Write;
use std::iter::repeat;

/// The prime of the hash.
const PRIME: u64 = 1000000007;

/// The hash of a list that is longer by x.
fn hashed(hash: u64, x: u64) -> u64 {
    (257 * (hash % PRIME) + x % PRIME + 1) % PRIME
}

/// The hash of so many numbers, those of a list and zeros behind: a polynomial in 257, modulo the prime.
fn hash<T: Copy + Into<u64>>(list: &[T], count: usize) -> u64 {
    list.iter()
        .map(|&x| x.into())
        .chain(repeat(0))
        .take(count)
        .fold(0, hashed)
}

/// Prints what reading finds in the head, and the hash of the weights with zeros behind.
pub fn print_head<W: Write>(head: Head, weights: &[u32], out: &mut Output<W>) {
    let Head {
        faults,
        cues,
        limits,
    } = head;
    let Limits {
        allowance,
        budget,
        mode,
    } = limits;
    let weights = hash(weights, MOST_FAULTS);
    write!(out, "head");
    writeln!(
        out,
        " {faults} {cues} {allowance} {budget} {mode} {weights}"
    );
}

/// Prints what reading finds of a cue: number, ways, start of its body, and the hashes of its words with zeros behind.
pub fn print_cue<W: Write>(entry: Entry, present: &[u64], absent: &[u64], out: &mut Output<W>) {
    let Entry { cue, ways, start } = entry;
    let present = hash(present, MOST_WAYS);
    let absent = hash(absent, MOST_WAYS);
    write!(out, "cue");
    writeln!(out, " {cue} {ways} {start} {present} {absent}");
}

/// Prints what the writer answered, behind a name, and the hash of the whole space afterwards.
pub fn print_written<W: Write>(answer: Result<u64, Refusal>, space: &[u8], out: &mut Output<W>) {
    // By hand: `CueAnswer` would bring in the whole C interface for one line.
    let (number, count) = match answer {
        Ok(count) => (0, count),
        Err(refusal) => (u64::from(refusal), 0),
    };
    let space = hash(space, space.len());
    writeln!(out, " {number} {count} {space}");
}
