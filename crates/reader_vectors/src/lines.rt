//! The printed line of a reader's answer: number, 1 past the last, cue, ways and start of the body.
//! Rests on `cue_numbers`, whose contracts say which numbers an answer is told by.
use cue_numbers::CueEntry;
use std::fmt;

/// An answer as it is printed.
#[derive(Clone, Copy)]
pub struct Line(pub CueEntry);

impl fmt::Display for Line {
    fn fmt<W: fmt::Write>(&self, f: &mut fmt::Formatter<W>) -> fmt::Result {
        let CueEntry {
            number,
            past,
            cue,
            ways,
            start,
        } = self.0;
        write!(f, "{number} {past} {cue} {ways} {start}")
    }
}
