//! Chances in billionths, and their products and means, which are divided by a billion and rounded down or up.
//! Rests on the definitions of `rules`, Rounding, Leaf and Tree.
ghost use Rattle.std.specs.Prelude.{◌≡◌, ◌+◌, ◌-◌, ◌*◌, ◌≤◌};
ghost use Rattle.rules.specs.Rounding;
ghost use Rattle.rules.specs.Leaf;
ghost use Rattle.rules.specs.Tree;
ghost use Rattle.rules.specs.Rounding.{S};

use rules::{Direction, S};
use std::marker::Model;

/// A chance in billionths: never more than a billion of them. The field is public: records keep the number alone, and whoever knows its bound makes the chance.
#[derive(Clone, Copy, PartialEq, Eq, PartialOrd, Ord, Debug)]
pub struct Chance {
    pub billionths: u64,
}

impl Model for Chance {
    ghost use Rattle.std.specs.Prelude.{ℕ, ◌≤◌};
    ghost use Rattle.rules.specs.Rounding.{S};

    ghost Value = { ℕ };

    ghost view = { λ c. c.billionths };

    ghost invariant = { λ c. c.billionths ≤ S };

    ghost inverse = { λ n. record { billionths = n } };
}

/// x / S, rounded.
fn over(direction: Direction, x: u64) -> Chance
    requires { x ≤ S * S }
    ensures { result ≡ Rounding.over direction x }
{
    let billionths = match direction {
        Direction::Down => x / S,
        // Tried as `div_ceil`, which divides and compares: sheets of long ways take 1.06 of the time, most others 1.02.
        Direction::Up => (x + (S - 1)) / S,
    };
    Chance { billionths }
}

impl Chance {
    /// What cannot happen.
    pub const NONE: Chance = Chance { billionths: 0 };

    /// What surely happens.
    pub const CERTAIN: Chance = Chance { billionths: S };

    /// The chance that it does not happen: what is left of S.
    pub fn rest(self) -> Chance
        ensures { result ≡ S - self }
    {
        Chance {
            billionths: S - self.billionths,
        }
    }

    /// The chance of both of two independent events.
    pub fn times(self, other: Chance, direction: Direction) -> Chance
        ensures { result ≡ Rounding.over direction (self * other) }
    {
        over(direction, self.billionths * other.billionths)
    }

    /// The chance of either of two independent events. What is left of S is rounded the other way.
    pub fn either(self, other: Chance, direction: Direction) -> Chance
        ensures { result ≡ Leaf.either direction self other }
    {
        self.rest().times(other.rest(), direction.opposite()).rest()
    }

    /// The mean of x and y with this weight and the rest of S, rounded once.
    pub fn mean(self, x: Chance, y: Chance, direction: Direction) -> Chance
        ensures { result ≡ Tree.mean direction self x y }
    {
        let sum = self.billionths * x.billionths + self.rest().billionths * y.billionths;
        over(direction, sum)
    }
}
