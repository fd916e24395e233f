//! A sheet that is accepted: bytes that no refusal of reading applies to, kept together with that fact.
//! Rests on the definitions of `rules`, Sheet, and of Reading.
ghost use Rattle.std.specs.Prelude.{◌≡◌};
ghost use Rattle.rules.specs.Sheet.{read_number};

use super::fields::Raw;
use super::parts::Parts;
use rules::{Entry, Refusal};

/// Bytes that are a sheet within the limits.
#[derive(Clone, Copy)]
pub struct Sheet<'a> {
    pub bytes: &'a [u8],
    ghost accepted: { read_number bytes.now ≡ 0 },
}

impl<'a> Sheet<'a> {
    ghost use Rattle.sheet.specs.Reading.{Reading, entries_in};

    /// The bytes as a sheet, or why they are refused.
    #[tactic(auto, unfolding(rules::specs::Refusals::answered, rules::specs::Sheet::read_refusals))]
    pub fn read(bytes: &'a [u8]) -> Result<Sheet<'a>, Refusal>
        ensures { Reading bytes.now result }
    {
        let raw = Raw { bytes };
        raw.check_head()?;
        raw.check_contents()?;
        raw.check_bodies()?;
        Ok(Sheet { bytes })
    }

    // A method, not `From`: what is read of a sheet reads on from it, as in `sheet.raw().limits()`.
    /// Its bytes, of which more can be asked.
    pub fn raw(self) -> Raw<'a>
        ensures { result.bytes ≡ self.entry.bytes }
    {
        Raw { bytes: self.bytes }
    }

    // A caller keeps the sheet beside an entry: an entry is also the answer of `cue_at`, whose caller has the bytes.
    /// The entries of its cues. Each body starts at the place that the contents state, so that no ways are counted to find it.
    #[tactic(auto, using(crate::proofs::Listed::entries_stated, std::proofs::lemmas::Grind::common_steps))]
    pub fn entries(self) -> Parts<'a, Entry>
        ensures { result ≡ entries_in self.entry.bytes.now }
    {
        self.raw().entries()
    }
}
