//! The cues that the records say, a cue for all records of one number that follow each other (RULES 13.9, 13.10). Rests on `csv_rows`.
ghost use Rattle.std.specs.Prelude.{◌≡◌, List, is_some, length};
ghost use Rattle.rules.specs.Table.{indicator};
ghost use Rattle.rules.specs.Sheet.{Cue};
ghost use Rattle.csv_import.specs.Gather.{Counted, Counting, CountsCue};

use arrayvec::ArrayVec;
use csv_rows::Row;
use csv_rows::lists::keep;
use csv_text::ImportError;
use rules::MOST_CUES;

/// Room for one cue more than a sheet may have, so that it is seen and refused.
const ROOM: usize = MOST_CUES + 1;

/// The last cue so far: its number, and how many ways it has.
#[derive(Clone, Copy, PartialEq, Eq, Debug)]
struct Last {
    number: u16,
    ways: u16,
}

/// The number and the count of ways of each cue before the last, as far as there is room. They are two lists, since the writer takes two slices.
#[derive(Default, Drop)]
pub struct Cues {
    pub numbers: ArrayVec<u16, ROOM>,
    pub counts: ArrayVec<u16, ROOM>,
    last: Option<Last>,
}

impl Cues {
    /// The last cue is kept with those before it.
    pub fn close(&mut self)
        ensures { (cs : List Cue) → Counting cs self.old → Counted cs self.new }
    {
        if let Some(last) = self.last.take() {
            keep(&mut self.numbers, last.number);
            keep(&mut self.counts, last.ways);
        }
    }

    /// A record's cue behind the others: another number begins a cue, and a way joins a cue that has ways. Else the record is misread.
    pub fn add(&mut self, row: Row, record_number: u64) -> Result<(), ImportError>
        ensures { (cs : List Cue) (c : Cue) → Counting cs self.old → c.number ≡ row.cue → length c.present ≡ indicator (is_some row.way)
            → CountsCue cs c record_number self.new result }
    {
        let has_way = row.way.is_some();
        let ways = match self.last {
            Some(last) if last.number == row.cue => {
                if last.ways == 0 || !has_way {
                    return Err(ImportError::Misread(record_number));
                }
                last.ways.saturating_add(1)
            }
            _ => {
                self.close();
                u16::from(has_way)
            }
        };
        let number = row.cue;
        self.last = Some(Last { number, ways });
        Ok(())
    }
}
