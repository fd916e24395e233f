//! The words of the ways that the records say. Rests on `csv_rows`.
ghost use Rattle.std.specs.Prelude.{◌≡◌, [], ◌∷◌, ◌++◌, take};

use arrayvec::ArrayVec;
use csv_rows::lists::keep;
use rules::{MOST_CUES, MOST_WAYS, Words};

/// Room for the ways of the largest sheet.
const ROOM: usize = MOST_CUES * MOST_WAYS;

/// The two words of each way. They are two lists, since the writer takes two slices.
#[derive(Default, Drop)]
pub struct Ways {
    pub present: ArrayVec<u64, ROOM>,
    pub absent: ArrayVec<u64, ROOM>,
}

impl Ways {
    /// One way more.
    pub fn add(&mut self, words: Words)
        ensures present { self.new.present.items ≡ take 3072 (self.old.present.items ++ words.present ∷ []) }
        ensures absent { self.new.absent.items ≡ take 3072 (self.old.absent.items ++ words.absent ∷ []) }
    {
        keep(&mut self.present, words.present);
        keep(&mut self.absent, words.absent);
    }
}
