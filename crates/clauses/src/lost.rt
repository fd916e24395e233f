//! What the ways of a leaf lost. Rests on bits alone.
//! A fault is gone once it is fixed or left out; a way that still names it is not changed, its words are read without these faults.
ghost use Rattle.std.specs.Prelude.{◌≡◌};
ghost use Rattle.clauses.specs.Leaves.{gone_word, fix_more, out_more};

/// The faults that the ways of a leaf lost, as words: those fixed present, those fixed absent, and those left out.
#[derive(Clone, Copy)]
pub struct Gone {
    pub present: u64,
    pub absent: u64,
    pub out: u64,
}

impl Gone {
    /// No fault is gone.
    pub const NONE: Gone = Gone {
        present: 0,
        absent: 0,
        out: 0,
    };

    /// All of them as one word.
    pub fn word(self) -> u64
        ensures { result ≡ gone_word self }
    {
        self.present | self.absent | self.out
    }

    /// More faults fixed, present (p) and absent (q).
    pub fn fixing(self, p: u64, q: u64) -> Gone
        ensures { result ≡ fix_more self p q }
    {
        Gone {
            present: self.present | p,
            absent: self.absent | q,
            ..self
        }
    }

    /// More faults left out.
    pub fn leaving_out(self, m: u64) -> Gone
        ensures { result ≡ out_more self m }
    {
        Gone {
            out: self.out | m,
            ..self
        }
    }
}
