//! The printed text of a sheet, to which pieces are appended where it is. It is seen as the list of its bytes.
//! Rests on the definitions of Appended. A byte for which there is no room is left out; the text of a sheet has room for all (`rules`, TextLength).
#![tactic(auto, using(crate::proofs::Appending::appending), unfolding(crate::specs::Appended::appended))]

ghost use Rattle.std.specs.Prelude.{◌≡◌, [], ◌∷◌, ◌++◌, ◌+◌, length};
ghost use Rattle.rules.specs.Text.{decimal};
ghost use Rattle.report.specs.Appended.{fitting, written};

use decimal::digits_of;
use rules::MOST_CUES;
use std::marker::Model;

/// A heading of 27 bytes and a line of at most 38 for each cue.
const MOST_BYTES: usize = 27 + 38 * MOST_CUES;

/// Room for the printed text.
pub type Room = [u8; MOST_BYTES];

/// A piece behind the first `used` bytes of any array; how many are used then. One that is full, or said to be more than full, stays as it is.
pub fn append(text: &mut Room, used: usize, piece: &[u8]) -> usize
    ensures bytes { text.new ≡ written text.old used piece.now }
    ensures count { result ≡ used + length (fitting used piece.now) }
{
    if used >= MOST_BYTES {
        return used;
    }
    let end = (used + piece.len()).min(MOST_BYTES);
    text[used..end].copy_from_slice(&piece[..end - used]);
    end
}

/// A number in decimal, and a byte behind it, in the same way.
pub fn append_decimal(text: &mut Room, used: usize, n: u64, end: u8) -> usize
    ensures bytes { text.new ≡ written text.old used (decimal n ++ end ∷ []) }
    ensures count { result ≡ used + length (fitting used (decimal n ++ end ∷ [])) }
{
    let used = append(text, used, digits_of(n).as_slice());
    append(text, used, &[end])
}

/// A printed text. Behind it there are zeros, so that the text gives the fields back.
/// No `ArrayVec`, which would be as plain: that a report is `Copy` was promised, and callers may copy it.
#[derive(Clone, Copy)]
pub struct Report {
    bytes: Room,
    used: usize,
}

impl Model for Report {
    ghost use Rattle.std.specs.Prelude.{◌≡◌, ◌++◌, ◌-◌, ◌≤◌, List, ℕ, length, take, drop, replicate};
    ghost use Rattle.std.proofs.Common.{arith, length-take-le, take-append-drop};

    ghost Value = { List ℕ };

    ghost view = { λ r. take r.used r.bytes };

    ghost invariant = { λ r. (r.used ≤ 939) × (length r.bytes ≡ 939) × (drop r.used r.bytes ≡ replicate (939 - r.used) 0) };

    ghost inverse = { λ v. record { bytes = v ++ replicate (939 - length v) 0; used = length v } };

    ghost inverse_ok = { λ r h i.
        let long : length (take r.used r.bytes) ≡ r.used = length-take-le r.used r.bytes (omega (arith, h.0, h.1)) in
        let bytes : take r.used r.bytes ++ replicate (939 - length (take r.used r.bytes)) 0 ≡ r.bytes
        = rw (long, ← h.2) (take-append-drop r.used r.bytes) in
        record {
          bytes = bytes i;
          used = long i;
        } };
}

impl Report {
    ghost use Rattle.std.specs.Prelude.{◌≡◌, ◌≤◌, [], ◌∷◌, ◌++◌, length};
    ghost use Rattle.rules.specs.Text.{decimal};
    ghost use Rattle.report.specs.Appended.{appended};

    /// A text without a byte.
    pub fn new() -> Report
        ensures { result ≡ [] }
    {
        Report {
            bytes: [0; MOST_BYTES],
            used: 0,
        }
    }

    /// Its bytes.
    pub fn as_slice(&self) -> &[u8]
        ensures bytes { result.now ≡ self.now }
        ensures within { length result.now ≤ 939 }
    {
        &self.bytes[..self.used]
    }

    /// A piece behind the bytes that are there.
    pub fn append(&mut self, piece: &[u8])
        ensures { self.new ≡ appended self.old piece.now }
    {
        self.used = append(&mut self.bytes, self.used, piece);
    }

    /// A number in decimal, and a byte behind it.
    pub fn append_decimal(&mut self, n: u64, end: u8)
        ensures { self.new ≡ appended self.old (decimal n ++ end ∷ []) }
    {
        self.used = append_decimal(&mut self.bytes, self.used, n, end);
    }
}
