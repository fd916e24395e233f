//! Numbers in decimal: the digits of a number. Which bytes are a number stands in specs/.
//! Rests on the definitions of `rules`, Text.
#![tactic(auto)]

ghost use Rattle.std.specs.Prelude.{◌≡◌, ◌≤◌, length};
ghost use Rattle.rules.specs.Text.{decimal};

use std::marker::Model;

/// The most digits that a word has.
const MOST: usize = 20;

// No `ArrayVec`: it is not `Copy`, as digits were, and they are found from the last one on.
// No `itoa`: it lends digits from a buffer of its caller's, and `digits_of`, which hands them on, would copy them into this array: no plainer.
/// The digits of a number, seen as their list: they stand at the end of the array, zeros in front, so that the list gives the fields back.
#[derive(Clone, Copy)]
pub struct Digits {
    bytes: [u8; MOST],
    from: usize,
}

impl Model for Digits {
    ghost use Rattle.std.specs.Prelude.{◌≡◌, ◌++◌, ◌-◌, ◌<◌, List, ℕ, length, take, drop, replicate};
    ghost use Rattle.std.proofs.Common.{arith, length-drop, take-append-drop};

    ghost Value = { List ℕ };

    ghost view = { λ d. drop d.from d.bytes };

    // One predicate of three facts: a `Model` has one invariant.
    ghost invariant = { λ d. (d.from < 20) × (length d.bytes ≡ 20) × (take d.from d.bytes ≡ replicate d.from 48) };

    ghost inverse = { λ v. record { bytes = replicate (20 - length v) 48 ++ v; from = 20 - length v } };

    ghost inverse_ok = { λ d h i.
        let place : 20 - length (drop d.from d.bytes) ≡ d.from = omega (arith, h.0, h.1, length-drop d.from d.bytes) in
        let bytes : replicate (20 - length (drop d.from d.bytes)) 48 ++ drop d.from d.bytes ≡ d.bytes
        = rw (place, ← h.2) (take-append-drop d.from d.bytes) in
        record {
          bytes = bytes i;
          from = place i;
        } };
}

impl Digits {
    /// The digits, the highest first.
    pub fn as_slice(&self) -> &[u8]
        ensures { result.now ≡ self.now }
    {
        &self.bytes[self.from..]
    }

    /// How many there are.
    pub fn len(&self) -> usize
        ensures count { result ≡ length self.now }
        ensures most { result ≤ 20 }
    {
        MOST - self.from
    }
}

/// The digits of a number, found from the last one on.
pub fn digits_of(n: u64) -> Digits
    ensures { result ≡ decimal n }
{
    let mut bytes = [b'0'; MOST];
    let mut from = MOST - 1;
    let mut rest = n;
    // A loop: the number ends it, not the array.
    while rest > 9 {
        bytes[from] = b'0' + (rest % 10) as u8;
        from -= 1;
        rest /= 10;
    }
    bytes[from] = b'0' + rest as u8;
    Digits { bytes, from }
}
