//! A script's table, lent to the calls on its tree, and the lines of what they answer.
//! Rests on `dtree`, and on `cue_numbers` for what they answer.
use super::lines::{Line, RunLine};
use super::requests::Call;
use arrayvec::ArrayVec;
use cue_numbers::CueAnswer;
use dtree::opening::open;
use dtree::refining::refine;
use dtree::runs::run;
use numbers::Numbers;
use output::Output;
use records::Tree;
use rules::{MOST_FAULTS, MOST_WAYS};
use std::io::{Read, Write};

/// The most weights of a script: one more than a table may have.
const WEIGHTS: usize = MOST_FAULTS + 1;

/// The most words of either kind: one more than a table may have.
const WAYS: usize = MOST_WAYS + 1;

/// A table as it is lent, good or not: three lists, as C has them.
#[derive(Drop)]
pub struct Table {
    weights: ArrayVec<u32, WEIGHTS>,
    present: ArrayVec<u64, WAYS>,
    absent: ArrayVec<u64, WAYS>,
}

impl Table {
    /// Reads a table: the lengths of its lists, then the lists.
    pub fn read<R: Read + Drop>(input: &mut Numbers<R, ()>) -> Self {
        let faults = input.list_length(WEIGHTS);
        let presents = input.list_length(WAYS);
        let absents = input.list_length(WAYS);
        Table {
            weights: input.array(faults, u32::MAX),
            present: input.array(presents, u64::MAX),
            absent: input.array(absents, u64::MAX),
        }
    }

    /// Opens the table and prints the line.
    pub fn open<W: Write>(&self, tree: &mut Tree, out: &mut Output<W>) {
        let answer = open(&self.weights, &self.present, &self.absent, tree);
        writeln!(out, "{}", Line(CueAnswer::from(answer)));
    }

    /// Makes a call and prints its line.
    pub fn call<W: Write>(&self, call: Call, tree: &mut Tree, out: &mut Output<W>) {
        let (weights, present, absent) = (&self.weights, &self.present, &self.absent);
        match call {
            Call::Refine { place, kind } => {
                let answer = refine(weights, present, absent, tree, &place, kind);
                writeln!(out, "{}", Line(CueAnswer::from(answer)));
            }
            Call::Run(limits) => {
                let answer = run(weights, present, absent, tree, limits);
                writeln!(out, "{}", RunLine(CueAnswer::from(answer)));
            }
        }
    }
}
