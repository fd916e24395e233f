//! The records of ways, one after the other: their cues, and the words of their ways. Rests on `csv_rows`, cues.rt and ways.rt.
ghost use Rattle.std.specs.Prelude.{◌≡◌, List, []};
ghost use Rattle.rules.specs.Sheet.{Cue};
ghost use Rattle.csv_text.specs.Cut.{records_in};
ghost use Rattle.csv_text.specs.Shapes.{row_in};
ghost use Rattle.csv_rows.specs.Told.{row_of};
ghost use Rattle.csv_import.specs.Gather.{Gathers, Adds, ReadsRows};

use super::cues::Cues;
use super::ways::Ways;
use csv_rows::ways::row;
use csv_rows::{Named, Row};
use csv_text::ImportError;

// The contracts name the cues that are read so far: what is cut or left out is not in the fields, so no `Model` or ghost field can be made of them.
/// What the records of ways say: their cues and the words of their ways, which are no longer kept once a way names a fault that no word has.
#[derive(Drop)]
pub struct Rows {
    pub cues: Cues,
    pub ways: Option<Ways>,
}

impl Rows {
    /// Before the first record.
    pub fn new() -> Rows
        ensures { Gathers [] result }
    {
        Rows {
            cues: Cues::default(),
            ways: Some(Ways::default()),
        }
    }

    /// One record more, if it may follow the one before it.
    fn add(&mut self, row: Row, record_number: u64) -> Result<(), ImportError>
        ensures { (cs : List Cue) (r : _) → Gathers cs self.old → row ≡ row_of (row_in r) → Adds cs (row_in r) record_number self.new result }
    {
        self.cues.add(row, record_number)?;
        match row.way {
            Some(Named::Near(words)) => {
                if let Some(ways) = &mut self.ways {
                    ways.add(words);
                }
            }
            Some(Named::Far) => {
                // Once: where they are let go, all their words are cleared, as many as a sheet has.
                if self.ways.is_some() {
                    self.ways = None;
                }
            }
            None => {}
        }
        Ok(())
    }

    // No iterator of records: it would hold the text and the count, and give each record or the error, for this loop alone.
    /// The records of ways, of which the first is the third of the text.
    pub fn read(&mut self, text: &[u8]) -> Result<(), ImportError>
        ensures { Gathers [] self.old → ReadsRows (records_in text.now) self.new result }
    {
        let mut record: u64 = 3;
        let mut rest = text;
        while !rest.is_empty() {
            let (row, lines) = row(rest).ok_or(ImportError::Misread(record))?;
            self.add(row, record)?;
            record += 1;
            rest = lines;
        }
        self.cues.close();
        Ok(())
    }
}
