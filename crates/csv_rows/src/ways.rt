//! The record of a way: its cue number, and the faults that it names. Rests on fields.rt: a text is read field by field.
//! A near fault, at a place below 64, the width of a word, is looked for in the word so far; only a far one is looked for among the fields behind it.
//! No iterator goes over the fields: the lines behind the record would have to be got out of it at its end, and `among` alone is not worth one.
ghost use Rattle.std.specs.Prelude.{◌≡◌, true, ◌<◌, map};
ghost use Rattle.csv_text.specs.Shapes.{fault_in, all_faults, among};
ghost use Rattle.csv_rows.specs.Fields.{fields_left};
ghost use Rattle.csv_rows.specs.Walks.{word_for, holds, with_fault, twice, named};
ghost use Rattle.csv_rows.specs.Told.{ReadsLine, faults_said, nothing_said, way_said, row_said};

use super::fields::{Rest, fault_field, number_field};
use super::{Named, Row};
use csv_text::Fault;
use rules::Words;

// Both stay, where `Named` has one of them: a near fault behind a far one is still looked for in the words.
/// The faults of a way that are seen so far: the words of the near ones, and whether there is a far one.
#[derive(Clone, Copy)]
struct Seen {
    words: Words,
    far: bool,
}

/// The fault is among those that are left, in the same sense, if all that is left are faults. Far faults are rare: they are looked for out of line.
#[inline(never)]
fn among(fault: Fault, rest: Rest<'_>) -> bool
    ensures { all_faults (fields_left rest.entry) ≡ true → result ≡ among fault (map fault_in (fields_left rest.entry)) }
{
    let mut rest = rest;
    while let Some(fields) = rest.fields() {
        let Some((other, behind)) = fault_field(fields) else {
            return false;
        };
        if fault == other {
            return true;
        }
        rest = behind;
    }
    false
}

impl Seen {
    /// No fault.
    const NONE: Seen = Seen {
        words: Words {
            present: 0,
            absent: 0,
        },
        far: false,
    };

    /// The word of a sense.
    fn word(&self, absent: bool) -> u64
        ensures { result ≡ word_for absent self.now.words }
    {
        if absent {
            self.words.absent
        } else {
            self.words.present
        }
    }

    // `has` of `chances` is the same of one word: a crate below both would have this line alone.
    /// A near fault is in the word of its sense.
    fn holds(&self, fault: Fault) -> bool
        requires { fault.place < 64 }
        ensures { result ≡ holds self.now fault }
    {
        (self.word(fault.absent) >> fault.place) & 1 == 1
    }

    /// The fault was named before, or, if it is far, is named behind it.
    fn again(&self, fault: Fault, rest: Rest<'_>) -> bool
        ensures { all_faults (fields_left rest.entry) ≡ true → result ≡ twice self.now fault (map fault_in (fields_left rest.entry)) }
    {
        if fault.place < 64 {
            self.holds(fault)
        } else {
            among(fault, rest)
        }
    }

    /// With one fault more.
    fn with(self, fault: Fault) -> Seen
        ensures { result ≡ with_fault self fault }
    {
        let Seen { mut words, far } = self;
        if fault.place >= 64 {
            return Seen { words, far: true };
        }
        let bit = 1 << fault.place;
        if fault.absent {
            words.absent |= bit;
        } else {
            words.present |= bit;
        }
        Seen { words, far }
    }

    /// The faults as they are handed over.
    fn named(self) -> Named
        ensures { result ≡ named self }
    {
        if self.far {
            Named::Far
        } else {
            Named::Near(self.words)
        }
    }
}

/// The fields as the faults of a way, none of them twice in the same sense. There is one at least, so no test stands before the first.
fn faults(text: &[u8]) -> Option<(Named, &[u8])>
    ensures { ReadsLine faults_said text.now result }
{
    let mut seen = Seen::NONE;
    let mut fields = text;
    loop {
        let (fault, rest) = fault_field(fields)?;
        if seen.again(fault, rest) {
            return None;
        }
        seen = seen.with(fault);
        match rest {
            Rest::Fields(further) => fields = further,
            Rest::Lines(lines) => return Some((seen.named(), lines)),
        }
    }
}

/// The field `0` alone: the empty way.
fn nothing(text: &[u8]) -> Option<(Named, &[u8])>
    ensures { ReadsLine nothing_said text.now result }
{
    let (number, rest) = number_field(text)?;
    let lines = rest.lines()?;
    (number == 0).then_some((Seen::NONE.named(), lines))
}

/// The fields behind a cue number: faults, or `0` alone for the empty way.
fn way(text: &[u8]) -> Option<(Named, &[u8])>
    ensures { ReadsLine way_said text.now result }
{
    faults(text).or_else(|| nothing(text))
}

/// The record of a way: a cue number, then the fields of the way, or none for a cue without ways.
pub fn row(text: &[u8]) -> Option<(Row, &[u8])>
    ensures { ReadsLine row_said text.now result }
{
    let (number, rest) = number_field(text)?;
    let cue = u16::try_from(number).ok()?;
    match rest {
        Rest::Lines(lines) => Some((Row { cue, way: None }, lines)),
        Rest::Fields(fields) => {
            let (way, lines) = way(fields)?;
            let way = Some(way);
            Some((Row { cue, way }, lines))
        }
    }
}
