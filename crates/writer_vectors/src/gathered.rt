//! The lists that a sheet is written from, gathered from the input or from a sheet that is read back.
//! Rests on `writer` and `sheet`.
use super::lines::{print_cue, print_head};
use arrayvec::ArrayVec;
use numbers::Numbers;
use output::Output;
use rules::{Entry, Limits, MOST_CUES, MOST_FAULTS, MOST_WAYS, Refusal};
use sheet::accepted::Sheet;
use std::io::{Read, Write};
use writer::lists::Lists;
use writer::write;

/// The most weights: one more than a sheet may have.
const WEIGHTS: usize = MOST_FAULTS + 1;

/// The most cues: one more than a sheet may have.
const CUES: usize = MOST_CUES + 1;

/// The most ways of all cues together: one more than a sheet may have.
const WAYS: usize = MOST_CUES * MOST_WAYS + 1;

/// The lists and the limits of a sheet, good or not. Two lists for the cues and two for the ways, as the writer takes them.
#[derive(Drop)]
pub struct Gathered {
    weights: ArrayVec<u32, WEIGHTS>,
    numbers: ArrayVec<u16, CUES>,
    counts: ArrayVec<u16, CUES>,
    present: ArrayVec<u64, WAYS>,
    absent: ArrayVec<u64, WAYS>,
    limits: Limits,
}

impl Gathered {
    /// Reads a case's lists: the length of each, the lists, and the limits.
    pub fn read<R: Read + Drop>(input: &mut Numbers<R, ()>) -> Self {
        let faults = input.list_length(WEIGHTS);
        let cues = input.list_length(CUES);
        let counted = input.list_length(CUES);
        let presents = input.list_length(WAYS);
        let absents = input.list_length(WAYS);
        Gathered {
            weights: input.array(faults, u32::MAX),
            numbers: input.array(cues, u16::MAX),
            counts: input.array(counted, u16::MAX),
            present: input.array(presents, u64::MAX),
            absent: input.array(absents, u64::MAX),
            limits: Limits {
                allowance: input.number(),
                budget: input.number(),
                mode: input.number(),
            },
        }
    }

    /// Gathers the lists of a sheet, cue by cue, and prints what reading finds.
    pub fn read_back<W: Write>(sheet: Sheet, out: &mut Output<W>) -> Self {
        let head = sheet.raw().head();
        let mut gathered = Gathered {
            weights: ArrayVec::new(),
            numbers: ArrayVec::new(),
            counts: ArrayVec::new(),
            present: ArrayVec::new(),
            absent: ArrayVec::new(),
            limits: head.limits,
        };
        // A sheet has no more weights than there is room for, and no more cues and ways below.
        let _ = gathered.weights.extend(sheet.raw().weights());
        print_head(head, &gathered.weights, out);
        for entry in sheet.entries() {
            gathered.add_cue(sheet, entry, out);
        }
        gathered
    }

    /// Prints a cue and adds it.
    fn add_cue<W: Write>(&mut self, sheet: Sheet, entry: Entry, out: &mut Output<W>) {
        let table = sheet.raw().table(entry);
        print_cue(entry, table.present(), table.absent(), out);
        let _ = self.numbers.try_push(entry.cue);
        let _ = self.counts.try_push(entry.ways);
        let _ = self.present.try_extend_from_slice(table.present());
        let _ = self.absent.try_extend_from_slice(table.absent());
    }

    /// Writes the sheet into the space.
    pub fn write(&self, space: &mut [u8]) -> Result<u64, Refusal> {
        let lists = Lists {
            limits: self.limits,
            weights: &self.weights,
            numbers: &self.numbers,
            counts: &self.counts,
            present: &self.present,
            absent: &self.absent,
        };
        write(lists, space)
    }
}
