//! A tree's records, all of one layout, the root in record 0; and how many there are.
//! specs/ says which records a series of refinements gives and how to read the series back; proofs/ that these belong together.
#![tactic(auto)]

ghost use Rattle.std.specs.Prelude.{◌≡◌, ◌&&◌, eqb};
ghost use Rattle.records.specs.Records.{is_live, kind_of, no_nodes, same_node, same_nodes};
ghost use Rattle.records.specs.Growing.{record_width};
ghost use Rattle.records.specs.Found.{wider, left_child, is_full};

use rules::{Kind, MOST_REFINEMENTS};

/// The records of a tree, one for each node that the most refinements make; in definitions `tree_records`.
pub const RECORDS: usize = 2 * MOST_REFINEMENTS as usize + 1;

/// The kind of a leaf's record.
pub const LEAF: u64 = 1;

/// The kind of a record that was refined by independence.
pub const INDEPENDENT_OR: u64 = 2;

/// The kind of a record that was refined by a fault.
pub const SHANNON: u64 = 3;

/// The kind of a record whose common part was taken out.
pub const INDEPENDENT_AND: u64 = 4;

/// One node. `kind` is 0 blank, 1 leaf, 2 independent-or, 3 Shannon on `fault`, 4 independent-and; `live` is 1 for an open leaf.
/// `left` is the record of the left child, the right one follows it; `waysa` and `waysb` are the numbers of the node's
/// remaining ways (0 to 63, 64 to 127); `present` and `absent` are the fixed faults, `out` those left out; `ownlow` and
/// `ownhigh` are the interval as a leaf, `low` and `high` the interval that the node has.
/// The codes and the mark are numbers, for the C interface: a record is lent with anything in it, which an enum or a flag could not hold.
#[repr(C)]
#[derive(Clone, Copy)]
pub struct Node {
    pub kind: u64,
    pub fault: u64,
    pub live: u64,
    pub parent: usize,
    pub left: usize,
    pub waysa: u64,
    pub waysb: u64,
    pub present: u64,
    pub absent: u64,
    pub out: u64,
    pub low: u64,
    pub high: u64,
    pub ownlow: u64,
    pub ownhigh: u64,
}

/// The records and how many are in use; the others are blank. A tree without nodes has none in use.
/// An array with a count, and nodes that name each other by index: so a tree is told in the words that C lends (specs/Lent.antt), and the library has no
/// heap.
#[repr(C)]
#[derive(Clone, Copy)]
pub struct Tree {
    pub nodes: [Node; RECORDS],
    pub used: usize,
}

/// A record that a search has found: its index, and the width of its interval.
#[derive(Clone, Copy)]
pub struct Found {
    pub at: usize,
    pub width: u64,
}

/// A record that is not in use.
const BLANK: Node = Node {
    kind: 0,
    fault: 0,
    live: 0,
    parent: 0,
    left: 0,
    waysa: 0,
    waysb: 0,
    present: 0,
    absent: 0,
    out: 0,
    low: 0,
    high: 0,
    ownlow: 0,
    ownhigh: 0,
};

/// A tree without nodes.
pub const NO_NODES: Tree = Tree {
    nodes: [BLANK; RECORDS],
    used: 0,
};

impl Node {
    /// What the record says was done there.
    #[tactic(auto, unfolding(crate::specs::Records::kind_of))]
    pub fn kind(&self) -> Kind
        ensures { result ≡ kind_of self.now }
    {
        match self.kind {
            INDEPENDENT_OR => Kind::IndependentOr,
            INDEPENDENT_AND => Kind::IndependentAnd,
            _ => Kind::Shannon(self.fault),
        }
    }

    /// The record is marked as an open leaf's. In a tree that a call left only a leaf's record is.
    pub fn is_live(&self) -> bool
        ensures { result ≡ is_live self.now }
    {
        self.live == 1
    }

    /// The record is a leaf's and is marked as an open one's, whatever else it holds.
    pub fn is_open_leaf(&self) -> bool
        ensures { result ≡ eqb self.now.kind 1 && is_live self.now }
    {
        self.kind == LEAF && self.is_live()
    }

    /// The record of the left child, which the right child's follows. A leaf has none.
    pub fn left_child(&self) -> Option<usize>
        ensures { result ≡ left_child self.now }
    {
        (self.left != 0).then_some(self.left)
    }

    /// The width of the record's interval, 0 where its ends are crossed.
    pub fn width(&self) -> u64
        ensures { result ≡ record_width self.now }
    {
        self.high.saturating_sub(self.low)
    }

    /// The bits in which the fields of two records differ, all fields together.
    pub fn unlike(&self, other: &Node) -> u64
        ensures { eqb result 0 ≡ same_node self.now other.now }
    {
        (self.kind ^ other.kind)
            | (self.fault ^ other.fault)
            | (self.live ^ other.live)
            | (self.parent ^ other.parent) as u64
            | (self.left ^ other.left) as u64
            | (self.waysa ^ other.waysa)
            | (self.waysb ^ other.waysb)
            | (self.present ^ other.present)
            | (self.absent ^ other.absent)
            | (self.out ^ other.out)
            | (self.low ^ other.low)
            | (self.high ^ other.high)
            | (self.ownlow ^ other.ownlow)
            | (self.ownhigh ^ other.ownhigh)
    }
}

impl Found {
    // No `max_by_key`, which takes the last of equals: the two would stand the other way round.
    /// The wider of two, the first if they are equally wide.
    pub fn wider(self, other: Found) -> Found
        ensures { result ≡ wider self other }
    {
        if self.width < other.width {
            other
        } else {
            self
        }
    }
}

impl Tree {
    /// Makes it a tree without nodes.
    #[tactic(auto, unfolding(crate::specs::Records::no_nodes))]
    pub fn clear(&mut self)
        ensures { self.new ≡ no_nodes }
    {
        *self = NO_NODES;
    }

    /// All records are in use: there is no room for a further node.
    pub fn is_full(&self) -> bool
        ensures { result ≡ is_full self.now }
    {
        self.used >= RECORDS
    }

    // Never inlined: in its one caller the compiler would compare word by word, and by itself it compares two at a time.
    // Tried as `self.nodes == other.nodes`, not inlined either: a small tree, opened and run in eight calls, takes 1.23 of the time, a large one the same.
    /// All records of two trees are equal. Every field is compared, with no way out before the last: the loop has nothing to decide, and trees that
    /// are compared are mostly equal.
    #[tactic(auto, using(crate::proofs::Compared::comparing), unfolding(crate::specs::Records::same_nodes))]
    #[inline(never)]
    pub fn same_nodes(&self, other: &Tree) -> bool
        ensures { result ≡ same_nodes self.now.nodes other.now.nodes }
    {
        let mut unlike = 0;
        for (x, y) in self.nodes.iter().zip(&other.nodes) {
            unlike |= x.unlike(y);
        }
        unlike == 0
    }
}
