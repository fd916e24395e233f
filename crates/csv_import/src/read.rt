//! A text read in one pass: the first two records, then the records of ways. Rests on `csv_rows`, on `csv_text`, on the lists of `writer`, and on rows.rt.
ghost use Rattle.std.specs.Prelude.{[]};
ghost use Rattle.csv_import.specs.Gather.{Gathers, ReadsText, GivenIf};

use super::rows::Rows;
use arrayvec::ArrayVec;
use csv_rows::heads::{run, weights};
use csv_text::ImportError;
use rules::{Limits, MOST_FAULTS};
use writer::lists::Lists;

/// Room for one weight more than a sheet may have, so that it is seen and refused.
const ROOM: usize = MOST_FAULTS + 1;

// Filled where it stands. Tried as a constructor: handing over its 50,000 bytes makes the typical import half as slow again, above 1.2 of Rust.
/// What a text says.
#[derive(Drop)]
pub struct Gathered {
    pub limits: Limits,
    pub weights: ArrayVec<u32, ROOM>,
    pub rows: Rows,
}

impl Gathered {
    /// Before the first record.
    pub fn new() -> Gathered
        ensures { Gathers [] result.rows }
    {
        Gathered {
            limits: Limits {
                allowance: 0,
                budget: 0,
                mode: 0,
            },
            weights: ArrayVec::new(),
            rows: Rows::new(),
        }
    }

    /// The whole text.
    pub fn read(&mut self, text: &[u8]) -> Result<(), ImportError>
        ensures { Gathers [] self.old.rows → ReadsText text.now self.new result }
    {
        let (limits, rest) = run(text).ok_or(ImportError::Misread(1))?;
        let (kept, rest) = weights(rest).ok_or(ImportError::Misread(2))?;
        self.limits = limits;
        self.weights = kept.first;
        self.rows.read(rest)
    }

    /// The lists for the writer, unless some way names a fault that no word has.
    pub fn lists(&self) -> Option<Lists<'_>>
        ensures { GivenIf self.now result }
    {
        let ways = self.rows.ways.as_ref()?;
        Some(Lists {
            limits: self.limits,
            weights: self.weights.as_slice(),
            numbers: self.rows.cues.numbers.as_slice(),
            counts: self.rows.cues.counts.as_slice(),
            present: ways.present.as_slice(),
            absent: ways.absent.as_slice(),
        })
    }
}
