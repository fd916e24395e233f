//! The ways outside the group of the lowest numbered way, and whether there are any: then the ways fall apart. Rests on `rules`, Group.
//! The word of the group's faults grows by sweeps over the ways that are not yet in the group, until a sweep changes nothing.
ghost use Rattle.std.specs.Prelude.{◌≡◌};
ghost use Rattle.rules.specs.Group.{others, fall_apart};
ghost use Rattle.clauses.specs.Leaves.{ways_of, Narrows};
ghost use Rattle.formula.specs.Sweeps.{Sweeps};

use clauses::Clauses;
use clauses::keeping::touches;
use clauses::sets::Numbers;
use clauses::taking::faults;

/// How far a group has come: the word of its faults, and the numbers of the ways that are not in it.
#[derive(Clone, Copy)]
struct Swept {
    word: u64,
    rest: Numbers,
}

/// One sweep over ways: each that the word touches adds its faults and is taken out, the others are left.
fn sweep(c: Clauses, m: u64) -> Swept
    ensures { Sweeps c.entry m result }
{
    let mut word = m;
    let mut rest = c.numbers;
    for v in c.ways() {
        if touches(word, v) {
            word |= faults(v);
            rest = rest.without(v.number);
        }
    }
    Swept { word, rest }
}

// Inlined: `falls_apart` only asks whether there are such ways, and a call would write a whole leaf out for that.
/// The ways outside the group of the lowest numbered way. It sweeps over all ways at first: a way that names no fault is outside its own group.
#[inline(always)]
pub fn other_ways<'a>(c: Clauses<'a>) -> Clauses<'a>
    ensures { Narrows c.entry (others (ways_of c.entry)) result }
{
    let Some(first) = c.ways().next() else {
        return c;
    };
    let mut word = faults(first);
    let mut outside = c.numbers;
    // Until a sweep finds nothing more: there is no index to go over.
    loop {
        let s = sweep(c.within(outside), word);
        outside = s.rest;
        if s.word == word {
            return c.within(outside);
        }
        word = s.word;
    }
}

/// The ways fall apart into two groups or more.
pub fn falls_apart(c: Clauses) -> bool
    ensures { result ≡ fall_apart (ways_of c.entry) }
{
    !other_ways(c).none_left()
}
