//! The printed line of an answer: number, low, high and count, and for a run its verdict, 0 if it has none, and its figure.
//! Rests on `cue_numbers`, whose contracts say which numbers an answer is told by.
use cue_numbers::CueAnswer;
use std::fmt;

/// The answer of an opening or a hand refinement as it is printed: its first four numbers.
#[derive(Clone, Copy)]
pub struct Line(pub CueAnswer);

/// The answer of a run as it is printed: verdict and figure stand behind the four.
#[derive(Clone, Copy)]
pub struct RunLine(pub CueAnswer);

impl fmt::Display for Line {
    fn fmt<W: fmt::Write>(&self, f: &mut fmt::Formatter<W>) -> fmt::Result {
        let CueAnswer {
            number,
            low,
            high,
            count,
            ..
        } = self.0;
        write!(f, "{number} {low} {high} {count}")
    }
}

impl fmt::Display for RunLine {
    fn fmt<W: fmt::Write>(&self, f: &mut fmt::Formatter<W>) -> fmt::Result {
        let CueAnswer {
            verdict,
            figure,
            ..
        } = self.0;
        write!(f, "{} {verdict} {figure}", Line(self.0))
    }
}
