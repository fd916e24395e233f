//! An accepted table: three lists that no refusal of tables applies to, kept together with that fact. And the words of its ways by themselves.
//! Rests on the definitions of `rules`, Table and Refusals.
ghost use Rattle.std.specs.Prelude.{◌≡◌, ◌≤◌, length};
ghost use Rattle.rules.specs.Table.{table};
ghost use Rattle.rules.specs.Refusals.{Accepted};

/// The words of at most 128 ways: a present and an absent word for each. They come as two lists, as C lends them.
#[derive(Clone, Copy)]
pub struct Rows<'a> {
    pub present: &'a [u64],
    pub absent: &'a [u64],
    ghost short: { length present.now ≤ 128 },
    ghost paired: { length absent.now ≡ length present.now },
}

/// A table that nothing refuses: a weight for each fault, a present and an absent word for each way, in three lists, as C lends them.
#[derive(Clone, Copy)]
pub struct Table<'a> {
    pub weights: &'a [u32],
    pub present: &'a [u64],
    pub absent: &'a [u64],
    ghost accepted: { Accepted (table weights.now present.now absent.now) },
}

impl<'a> Table<'a> {
    // A method: it promises of each list in a clause of its own, where `From` has one relation for both.
    /// The words of its ways.
    pub fn rows(self) -> Rows<'a>
        ensures present { result.present.now ≡ self.entry.present.now }
        ensures absent { result.absent.now ≡ self.entry.absent.now }
    {
        Rows {
            present: self.present,
            absent: self.absent,
        }
    }
}
