//! The parts of a sheet that stand one behind the other. Rests on the definitions of Parts.
ghost use Rattle.std.specs.Prelude.{◌≡◌, ℕ, List};
ghost use Rattle.std.specs.Iterator.{YieldsFirst, item_count};
ghost use Rattle.sheet.specs.Parts.{parts, weight, stated, words};

use super::fields::Raw;
use rules::Entry;
pub use rules::Words;
use std::marker::{Model, PhantomData};

/// What stands in a sheet's bytes many times over.
pub trait Part: Copy {
    /// How many bytes one takes.
    const SIZE: usize;

    ghost SIZE: { ℕ };

    ghost first: { List ℕ → Self };

    /// The one that the bytes begin with.
    fn read(bytes: Raw<'_>) -> Self
        ensures { result ≡ first bytes.entry.bytes.now };
}

/// A weight.
impl Part for u32 {
    const SIZE: usize = 4;

    ghost SIZE = { 4 };

    ghost first = { weight };

    fn read(bytes: Raw<'_>) -> u32 {
        bytes.u32_at(0)
    }
}

/// An entry of the contents: a cue's number, its count of ways, and the stated place of its body.
impl Part for Entry {
    const SIZE: usize = 8;

    ghost SIZE = { 8 };

    ghost first = { stated };

    fn read(bytes: Raw<'_>) -> Entry {
        Entry {
            cue: bytes.u16_at(0),
            ways: bytes.u16_at(2),
            start: bytes.u32_at(4),
        }
    }
}

/// The two words of a way.
impl Part for Words {
    const SIZE: usize = 16;

    ghost SIZE = { 16 };

    ghost first = { words };

    fn read(bytes: Raw<'_>) -> Words {
        Words {
            present: bytes.u64_at(0),
            absent: bytes.u64_at(8),
        }
    }
}

/// The parts that are left, seen as their list: so many, from the first of the bytes on.
#[derive(Drop)]
pub struct Parts<'a, P: Part> {
    left: usize,
    rest: Raw<'a>,
    kind: PhantomData<P>,
}

impl<'a, P: Part> Model for Parts<'a, P> {
    ghost Value = { List P };

    ghost view = { λ p. parts P.first P.SIZE p.left p.rest.bytes.now };
}

impl<'a, P: Part> Parts<'a, P> {
    /// So many parts, from the first of the bytes on.
    pub(crate) fn new(left: usize, rest: Raw<'a>) -> Parts<'a, P>
        ensures { result ≡ parts P.first P.SIZE left rest.entry.bytes.now }
    {
        Parts {
            left,
            rest,
            kind: PhantomData,
        }
    }
}

/// A part of which bytes are missing.
#[cold]
fn cut_off<P: Part>(bytes: Raw<'_>) -> P
    ensures { result ≡ P.first bytes.entry.bytes.now }
{
    P::read(bytes)
}

impl<P: Part> Iterator for Parts<'_, P> {
    type Item = P;

    ghost next_gives = { YieldsFirst (λ p. p) };

    ghost remaining = { item_count (λ p. p) };

    #[tactic(auto, using(crate::proofs::Stated::parts_cut, std::proofs::lemmas::Grind::common_steps), unfolding(crate::specs::Parts::parts))]
    fn next(&mut self) -> Option<P> {
        if self.left == 0 {
            return None;
        }
        self.left -= 1;
        let Some((own, rest)) = self.rest.bytes.split_at_checked(P::SIZE) else {
            let part = cut_off(self.rest);
            self.rest = Raw { bytes: &[] };
            return Some(part);
        };
        self.rest = Raw { bytes: rest };
        Some(P::read(Raw { bytes: own }))
    }
}
