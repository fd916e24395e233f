//! What a sheet's bytes are read for: the head of the whole, the cue at a position, a cue's body.
//! Rests on the definitions of `rules`, Sheet, and of Handed. Refused bytes are refused at every call, also past the last cue.
ghost use Rattle.std.specs.Prelude.{◌≡◌, ◌<◌, ◌≤◌};
ghost use Rattle.rules.specs.Answers.{counted_by, read_reply, entry_reply};
ghost use Rattle.rules.specs.Sheet.{cues_in, entry_in, read_number, read_answer, entry_answer};
ghost use Rattle.sheet.specs.Handed.{body_or};

use super::accepted::Sheet;
use super::fields::Raw;
use super::parts::Part;
use rules::{Entry, Head, Refusal};

/// Reading a whole sheet: its head.
pub fn read(bytes: &[u8]) -> Result<Head, Refusal>
    ensures answer { result ≡ read_answer bytes.now }
    ensures reply { read_reply result ≡ counted_by (read_number bytes.now) 0 }
{
    let sheet = Sheet::read(bytes)?;
    Ok(sheet.raw().head())
}

/// A reader's call at position i: past the last cue there is none, and refused bytes are refused there too.
pub fn cue_at(bytes: &[u8], i: usize) -> Result<Option<Entry>, Refusal>
    ensures answer { result ≡ entry_answer bytes.now i }
    ensures reply { entry_reply result ≡ counted_by (read_number bytes.now) 0 }
{
    let sheet = Sheet::read(bytes)?;
    Ok(sheet.entries().nth(i))
}

impl<'a> Raw<'a> {
    /// The cue at position i of the contents, where there is one. Its body's start is counted on from the weights: this is for bytes whose stated places
    /// are not judged, while `cue_at` and `entries` take the stated places of a sheet.
    /// No code here calls it: it stays for its contract (docs/CONTRACTS.md).
    pub fn entry_at(self, i: usize) -> Entry
        requires inside { i < cues_in self.bytes.now }
        requires few { cues_in self.bytes.now ≤ 24 }
        ensures { result ≡ entry_in self.entry.bytes.now i }
    {
        Entry {
            start: (self.bodies_start() + 16 * self.ways_before(i)) as u32,
            ..Entry::read(self.rest(12 + 8 * i))
        }
    }

    /// The body of an entry as a part of the bytes, or none of them where the entry points beyond the end.
    #[tactic(auto, using(crate::proofs::Sized::sizing), unfolding(crate::specs::Handed::body_or, crate::specs::Handed::body_by, rules::specs::Sheet::body_in))]
    pub fn body(self, entry: Entry) -> &'a [u8]
        ensures { result.now ≡ body_or self.entry.bytes.now entry }
    {
        let start = entry.start as usize;
        let end = start + 16 * usize::from(entry.ways);
        self.bytes.get(start..end).unwrap_or(&[])
    }
}
