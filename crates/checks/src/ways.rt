//! Tests on the words of ways, one way by itself or those that two lists give. Rests on the definitions of `rules`, Table and Refusals.
//! The lists may differ in length: a word that one of them lacks is 0, which names no fault, so each list is judged to its own end. They come as two until
//! they are judged: `Rows` are two of one length. What judges two slices stands once more in `sheet`, rows.rt, for the reason in lists.rt.
ghost use Rattle.std.specs.Prelude.{◌≡◌, ◌||◌, ◌^◌, not, eqb, leb};
ghost use Rattle.std.specs.Int.Bits.{bit_and};
ghost use Rattle.std.specs.List.{list_any};
ghost use Rattle.rules.specs.Table.{rows};
ghost use Rattle.rules.specs.Refusals.{answered, words_amiss, names_beyond, names_both, way_refusals};

use rules::{MOST_WAYS, Refusal, Words};

/// A word names a fault at or above n. No word names one at 64 or above, and a shift by 64 has no meaning.
fn beyond(n: usize, word: u64) -> bool
    ensures { result ≡ leb (2 ^ n) word }
{
    n < 64 && word >> n != 0
}

/// 12, of one way: it names a fault numbered n or above, where n is how many there are.
pub fn way_beyond(n: usize, way: Words) -> bool
    ensures { result ≡ (leb (2 ^ n) way.present || leb (2 ^ n) way.absent) }
{
    beyond(n, way.present) || beyond(n, way.absent)
}

/// 13, of one way: it names a fault in both senses.
pub fn way_both(way: Words) -> bool
    ensures { result ≡ not (eqb (bit_and way.present way.absent) 0) }
{
    way.present & way.absent != 0
}

/// 11: more than 128 present words, or not as many absent words.
#[tactic(auto, unfolding(rules::specs::Refusals::words_amiss))]
pub fn words_amiss(present: &[u64], absent: &[u64]) -> bool
    ensures { result ≡ words_amiss present.now absent.now }
{
    MOST_WAYS < present.len() || present.len() != absent.len()
}

/// Some word of a list names a fault at or above n.
fn some_beyond(n: usize, words: &[u64]) -> bool
    ensures { result ≡ list_any (leb (2 ^ n)) words.now }
{
    words.iter().any(|&word| beyond(n, word))
}

/// 12: a way names a fault numbered n or above, where n is how many there are.
#[tactic(auto, using(crate::proofs::Rows::beyond_either, std::proofs::lemmas::Grind::common_steps))]
pub fn names_beyond(n: usize, present: &[u64], absent: &[u64]) -> bool
    ensures { result ≡ names_beyond n (rows 0 present.now absent.now) }
{
    some_beyond(n, present) || some_beyond(n, absent)
}

/// 13: a way names a fault in both senses.
#[tactic(auto, using(crate::proofs::Rows::both_pairs))]
pub fn names_both(present: &[u64], absent: &[u64]) -> bool
    ensures { result ≡ names_both (rows 0 present.now absent.now) }
{
    present
        .iter()
        .zip(absent)
        .any(|(&present, &absent)| way_both(Words { present, absent }))
}

/// The ways are refused by 12 or 13, each tried over all ways before the next, or let pass.
#[tactic(auto, unfolding(rules::specs::Refusals::answered, rules::specs::Refusals::way_refusals))]
pub fn check_ways(n: usize, present: &[u64], absent: &[u64]) -> Result<(), Refusal>
    ensures { result ≡ answered (way_refusals n (rows 0 present.now absent.now)) tt }
{
    Refusal::NamesBeyond.test(names_beyond(n, present, absent))?;
    Refusal::NamesBoth.test(names_both(present, absent))
}
