//! Sets of ways by number, as two words of bits. Rests on `records`, Records.
//! The two words are those of a record, so that a leaf is read from one and written to one as it is.
ghost use Rattle.std.specs.Int.Bits.{bit_or};
ghost use Rattle.std.specs.Prelude.{◌≡◌, not, ◌&&◌, ◌||◌, ℕ, ◌-◌, ◌<◌, ◌≤◌, ◌^◌, eqb, ltb};
ghost use Rattle.clauses.specs.Numbers.{is_in};

// Two words. Tried as one of 128 bits: it is plainer, but each way that is taken costs both halves. The largest sheet took 1.27 of the instructions.
/// The numbers of some ways: a number below 64 is a bit of `low`, one from 64 on, less 64, a bit of `high`.
/// Where one number is handed over it has to be below 128. A type of such numbers would be no plainer: they come from ways, which have any.
#[derive(Clone, Copy)]
pub struct Numbers {
    pub low: u64,
    pub high: u64,
}

/// The word with bit i alone.
pub fn one_bit(i: usize) -> u64
    requires { i < 64 }
    ensures { result ≡ 2 ^ i }
{
    1 << i
}

/// The word with every bit below n.
fn bits_below(n: usize) -> u64
    requires { n ≤ 64 }
    ensures { result ≡ 2 ^ n - 1 }
{
    if n < 64 { one_bit(n) - 1 } else { !0 }
}

impl Numbers {
    /// All numbers below n.
    pub fn below(n: usize) -> Numbers
        requires { n ≤ 128 }
        ensures { (i : ℕ) → is_in result i ≡ ltb i n }
    {
        if n < 64 {
            return Numbers {
                low: bits_below(n),
                high: 0,
            };
        }
        Numbers {
            low: !0,
            high: bits_below(n - 64),
        }
    }

    /// One number alone.
    pub fn one(i: usize) -> Numbers
        requires { i < 128 }
        ensures { (j : ℕ) → is_in result j ≡ eqb j i }
    {
        if i < 64 {
            return Numbers {
                low: one_bit(i),
                high: 0,
            };
        }
        Numbers {
            low: 0,
            high: one_bit(i - 64),
        }
    }

    /// There is none.
    pub fn is_empty(self) -> bool
        ensures { result ≡ eqb (bit_or self.low self.high) 0 }
    {
        self.low | self.high == 0
    }

    // The next three differ in one operator. A function over a closure and three calls of it would be as many lines, and its contract less plain.
    /// The numbers of both sets.
    pub fn and(self, other: Numbers) -> Numbers
        ensures { (i : ℕ) → is_in result i ≡ (is_in self i && is_in other i) }
    {
        Numbers {
            low: self.low & other.low,
            high: self.high & other.high,
        }
    }

    /// The numbers of either set.
    pub fn or(self, other: Numbers) -> Numbers
        ensures { (i : ℕ) → is_in result i ≡ (is_in self i || is_in other i) }
    {
        Numbers {
            low: self.low | other.low,
            high: self.high | other.high,
        }
    }

    /// The numbers of the first set that are not in the second.
    pub fn minus(self, other: Numbers) -> Numbers
        ensures { (i : ℕ) → is_in result i ≡ (is_in self i && not (is_in other i)) }
    {
        Numbers {
            low: self.low & !other.low,
            high: self.high & !other.high,
        }
    }

    /// The numbers but this one.
    pub fn without(self, i: usize) -> Numbers
        requires { i < 128 }
        ensures { (j : ℕ) → is_in result j ≡ (is_in self j && not (eqb j i)) }
    {
        self.minus(Numbers::one(i))
    }
}
