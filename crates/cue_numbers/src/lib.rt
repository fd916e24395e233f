//! The answers of the C interface: structs of plain numbers, as include/cue_risk.h has them. numbers.rt makes each from the answer of the call that
//! it tells, by the definitions of specs/Numbers.antt. Rests on the answers of `rules`, with those of the writer, the report and the trees, and on
//! those of `page`, `sheet`, `csv_text` and `captures`; `cuerisk` has the exports.
#![tactic(auto)]

pub mod numbers;

use rules::{MOST_FAULTS, MOST_WAYS};

/// The answer of a call on a tree, and of a call that fills a space: writer, report, import and export. `verdict` is 0 none, 1 met, 2 done, 3 full, 4 spent.
/// `figure` is that of an accepted run, by share 0, and 0 in every other answer.
#[repr(C)]
#[derive(Clone, Copy)]
pub struct CueAnswer {
    pub number: u64,
    pub low: u64,
    pub high: u64,
    pub count: u64,
    pub verdict: u64,
    pub figure: u64,
}

/// The answer of the search of lent records: 1 and the position, or 0 and 0.
#[repr(C)]
#[derive(Clone, Copy, Default)]
pub struct CueSpot {
    pub found: u64,
    pub at: usize,
}

/// The answer of reading a whole sheet: its head, or the number that refuses it and zeros.
#[repr(C)]
#[derive(Clone, Copy, Default)]
pub struct CueSheet {
    pub number: u64,
    pub faults: u64,
    pub cues: u64,
    pub allowance: u64,
    pub budget: u64,
    pub mode: u64,
}

/// The answer of a reader's call: a cue; past the last cue `past` is 1 and the rest 0; refused, the number and zeros.
#[repr(C)]
#[derive(Clone, Copy, Default)]
pub struct CueEntry {
    pub number: u64,
    pub past: u64,
    pub cue: u64,
    pub ways: u64,
    pub start: u64,
}

/// The answer of a call for a cue's table: the first `faults` weights, the first `ways` words of each kind, and zeros behind them; past the last
/// cue `past` is 1 and the rest 0; refused, the number and zeros.
#[repr(C)]
#[derive(Clone, Copy)]
pub struct CueTable {
    pub number: u64,
    pub past: u64,
    pub faults: u64,
    pub ways: u64,
    pub weights: [u32; MOST_FAULTS],
    pub present: [u64; MOST_WAYS],
    pub absent: [u64; MOST_WAYS],
}

/// The answer of counting one log or several, and of adding fractions: the fraction, or the number that refuses it and 0 of 0.
#[repr(C)]
#[derive(Clone, Copy, Default)]
pub struct CueFraction {
    pub number: u64,
    pub discarded: u64,
    pub judged: u64,
}

/// The answer of making a weight of a fraction: the weight, or the number that refuses it and 0.
#[repr(C)]
#[derive(Clone, Copy, Default)]
pub struct CueWeight {
    pub number: u64,
    pub weight: u64,
}

/// The answer of comparing a fraction with another: 1 less, 2 equal, 3 greater, or the number that refuses it and 0.
#[repr(C)]
#[derive(Clone, Copy, Default)]
pub struct CueOrder {
    pub number: u64,
    pub order: u64,
}
