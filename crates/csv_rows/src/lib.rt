//! The first line of a text, read field by field: what it says as the record of the limits, of the weights or of a way, and the lines behind it.
//! Rests on `decimal` and on the definitions of `csv_text`. What each function tells stands in specs/Told.antt.
#![tactic(auto)]

pub mod fields;
pub mod heads;
pub mod lists;
pub mod ways;

use rules::Words;

// No `Option<Words>`: in a row it would stand in another one, and neither `None` would say which it is.
/// The faults that a way names: by the words of the near ones, at places below 64, or one is far, at a place that no word has.
#[derive(Clone, Copy)]
pub enum Named {
    Near(Words),
    Far,
}

/// What the record of a way says: its cue, and the faults of the way, or none for a cue without ways.
#[derive(Clone, Copy)]
pub struct Row {
    pub cue: u16,
    pub way: Option<Named>,
}
