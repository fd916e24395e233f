//! A sample: writes the risk sheet of a small show on standard output. Rests on `writer` and `output`; the show itself stands in show.rt.
//! samples/show.sheet is what it writes, and samples/README.md tells it in words.
#![tactic(auto)]

mod show;

use arrayvec::ArrayVec;
use output::Output;
use rules::{Limits, MOST_CUES, MOST_WAYS};
use show::{ALLOWANCE, BUDGET, CUES, Cue, MODE, WEIGHTS};
use std::{array, io};
use streams::LONGEST_SHEET;
use writer::lists::Lists;
use writer::write;

/// How many cues the show has.
const COUNT: usize = CUES.len();

/// The most ways of all cues together. A show that has more is refused for its cues, whatever its ways are.
const WAYS: usize = MOST_CUES * MOST_WAYS;

/// How many ways a cue has. A cue that has more than can be counted is refused like one that has too many.
fn count(cue: &Cue) -> u16 {
    u16::try_from(cue.ways.len()).unwrap_or(u16::MAX)
}

/// Writes the sheet, or the line of a refusal if the lists are not in order.
fn main(rt: HostRuntime) {
    let numbers: [u16; COUNT] = array::from_fn(|i| CUES[i].number);
    let counts: [u16; COUNT] = array::from_fn(|i| count(&CUES[i]));
    let mut present = ArrayVec::<u64, WAYS>::new();
    let mut absent = ArrayVec::<u64, WAYS>::new();
    // Two loops. Tried as `flat_map`: the proof does not close, for the closure's answer names a lifetime of its own.
    for cue in CUES {
        for &(with, without) in cue.ways {
            let _ = present.try_push(with);
            let _ = absent.try_push(without);
        }
    }
    let lists = Lists {
        limits: Limits {
            allowance: ALLOWANCE,
            budget: BUDGET,
            mode: MODE,
        },
        weights: WEIGHTS,
        numbers: &numbers,
        counts: &counts,
        present: &present,
        absent: &absent,
    };
    let mut out = Output(io::writer(&rt));
    let mut sheet = [0; LONGEST_SHEET];
    match write(lists, &mut sheet) {
        Ok(length) => out.write_all(sheet.get(..length as usize).unwrap_or(&sheet)),
        Err(refusal) => writeln!(out, "{refusal}"),
    }
}
