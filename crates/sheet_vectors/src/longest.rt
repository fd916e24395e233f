//! A sheet of the longest kind: 64 faults, and 24 cues of 128 ways that share faults at random.
//! The ways come from a xorshift generator, so that they are the same everywhere. Rests on `writer`.
use rules::{Limits, MOST_CUES, MOST_FAULTS, MOST_WAYS};
use std::array;
use writer::lists::Lists;
use writer::write;

/// How many ways all cues have together.
const WAYS: usize = MOST_CUES * MOST_WAYS;

/// The next state of the generator.
fn next(x: u64) -> u64 {
    let a = x ^ (x << 13);
    let b = a ^ (a >> 7);
    b ^ (b << 17)
}

/// The bit of a fault, by its number's remainder.
fn bit(x: u64) -> u64 {
    1 << (x % 64)
}

/// The faults that a way names present: up to three.
fn present(x: u64) -> u64 {
    bit(x) | bit(x / 64) | bit(x / 4096)
}

/// The fault that it names absent, unless that is one of those.
fn absent(x: u64) -> u64 {
    bit(x / 262144) & !present(x)
}

/// Puts the sheet to the front of a space. The weights are three thousandths for fault 0, and three more for each fault; each way has a state of
/// the generator. Not inlined: its lists are to be off the stack when a report is made.
#[inline(never)]
pub fn put_longest(space: &mut [u8]) {
    let weights: [u32; MOST_FAULTS] = array::from_fn(|fault| 3000000 * (fault as u32 + 1));
    let numbers: [u16; MOST_CUES] = array::from_fn(|cue| cue as u16 + 1);
    let mut presents = [0; WAYS];
    let mut absents = [0; WAYS];
    let mut state = 1;
    for way in 0..WAYS {
        state = next(state);
        presents[way] = present(state);
        absents[way] = absent(state);
    }
    let lists = Lists {
        limits: Limits {
            allowance: 62500000,
            budget: 4,
            mode: 0,
        },
        weights: &weights,
        numbers: &numbers,
        counts: &[MOST_WAYS as u16; MOST_CUES],
        present: &presents,
        absent: &absents,
    };
    let _ = write(lists, space);
}
