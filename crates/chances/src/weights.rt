//! The weights of a table's faults, and the low or the high chance of a way. Rests on the definitions of `rules`, Leaf.
//! The walk visits only the faults that the way names, so that its cost follows their number.
ghost use Rattle.std.specs.Prelude.{◌≡◌, false, get_or, slice_get};
ghost use Rattle.rules.specs.Leaf;
ghost use Rattle.rules.specs.Refusals.{overweight};

use super::bits::{Bits, has};
use super::rounding::Chance;
use checks::accepted::Table;
use rules::{Direction, Way};

/// The weights of faults, none above S.
#[derive(Clone, Copy)]
pub struct Weights<'a> {
    pub list: &'a [u32],
    ghost light: { overweight list.now ≡ false },
}

// Two flags, as the rules' `step` has them. An enum would need all four cases, since a way's words may name a fault in both senses.
/// The chance c with one fault of this weight: named present it multiplies in the weight, named absent the rest of S, else nothing.
fn step(c: Chance, weight: Chance, present: bool, absent: bool, direction: Direction) -> Chance
    ensures { result ≡ Leaf.step direction weight present absent c }
{
    if present {
        return c.times(weight, direction);
    }
    if absent {
        return c.times(weight.rest(), direction);
    }
    c
}

impl<'a> Weights<'a> {
    /// The weight of a fault, where it has one: a fault beyond the last has none.
    fn get(self, fault: usize) -> Option<Chance>
        ensures { result ≡ slice_get self.entry.list.now fault }
    {
        let &weight = self.list.get(fault)?;
        Some(Chance {
            billionths: u64::from(weight),
        })
    }

    /// The weight of a fault, 0 where it has none.
    pub fn of(self, fault: usize) -> Chance
        ensures { result ≡ get_or self.entry.list.now fault 0 }
    {
        self.get(fault).unwrap_or(Chance::NONE)
    }

    /// The chance of a way. Faults that have no weight do not count.
    pub fn chance(self, way: Way, direction: Direction) -> Chance
        ensures { result ≡ Leaf.chance direction self.entry.list.now way }
    {
        let mut chance = Chance::CERTAIN;
        for fault in Bits::of(way.present | way.absent) {
            if let Some(weight) = self.get(fault) {
                chance = step(
                    chance,
                    weight,
                    has(way.present, fault),
                    has(way.absent, fault),
                    direction,
                );
            }
        }
        chance
    }
}

impl<'a> From<Table<'a>> for Weights<'a> {
    ghost from_gives = { λ t w. w.list.now ≡ t.weights.now };

    fn from(table: Table<'a>) -> Weights<'a> {
        Weights {
            list: table.weights,
        }
    }
}
