//! The ways of a leaf, one after the other in number order, and what a way names.
//! Rests on `rules`, Leaf, and on trailing_zeros, so that a loop's cost follows the number of its ways.
//! What is asked of one way are free functions: in clauses and in the bodies of closures they read as the rules' definitions do.
ghost use Rattle.std.specs.Prelude.{◌≡◌, not, ◌<◌, length};
ghost use Rattle.std.specs.Iterator.{YieldsFirst, item_count};
ghost use Rattle.rules.specs.Table;
ghost use Rattle.rules.specs.Leaf;
ghost use Rattle.rules.specs.Group.{nonempty};
ghost use Rattle.clauses.specs.Leaves.{way_at, ways_of, left_of};

use super::Clauses;
use rules::Way;

/// The faults that a way names, as a word.
pub fn faults(v: Way) -> u64
    ensures { result ≡ Table.faults v }
{
    v.present | v.absent
}

/// The word w without the faults of m.
pub fn without(m: u64, w: u64) -> u64
    ensures { result ≡ Leaf.without m w }
{
    w & !m
}

/// The faults that a way names besides those of the word.
pub fn faults_besides(v: Way, m: u64) -> u64
    ensures { result ≡ Leaf.without m (Table.faults v) }
{
    without(m, faults(v))
}

/// The way without the faults of the word.
fn dropped(m: u64, v: Way) -> Way
    ensures { result ≡ Leaf.dropped m v }
{
    Way {
        number: v.number,
        present: without(m, v.present),
        absent: without(m, v.absent),
    }
}

/// The ways of a leaf that are still to come.
#[derive(Clone, Copy)]
pub struct Ways<'a> {
    left: Clauses<'a>,
}

impl<'a> Iterator for Ways<'a> {
    type Item = Way;

    ghost next_gives = { YieldsFirst left_of };

    ghost remaining = { item_count left_of };

    // The two words are taken alike. One function over both would be handed a word and an offset and hand back a number and a word, and `Bits` would be
    // made of a word for one step and taken apart: no plainer.
    fn next(&mut self) -> Option<Way> {
        let low = self.left.numbers.low;
        if low != 0 {
            self.left.numbers.low = low & (low - 1);
            return Some(self.left.way_at(low.trailing_zeros() as usize));
        }
        let high = self.left.numbers.high;
        if high != 0 {
            self.left.numbers.high = high & (high - 1);
            return Some(self.left.way_at(64 + high.trailing_zeros() as usize));
        }
        None
    }
}

impl<'a> Clauses<'a> {
    /// The ways, the lowest number first.
    pub fn ways(self) -> Ways<'a>
        ensures { left_of result ≡ ways_of self.entry }
    {
        Ways { left: self }
    }

    /// There is none.
    pub fn none_left(self) -> bool
        ensures { result ≡ not (nonempty (ways_of self.entry)) }
    {
        self.numbers.is_empty()
    }

    /// The way of the table with number i, without the faults that are gone.
    fn way_at(self, i: usize) -> Way
        requires { i < length self.rows.present.now }
        ensures { result ≡ way_at self.entry i }
    {
        let way = Way {
            number: i,
            present: self.rows.present[i],
            absent: self.rows.absent[i],
        };
        dropped(self.gone.word(), way)
    }
}
