//! The records of trees, lent to the search while they grow. Rests on `page` and `dtree`.
use super::lent::{OPEN, record};
use super::print;
use dtree::opening::open;
use dtree::runs::run;
use output::Output;
use page::widest;
use records::{LEAF, RECORDS, Tree};
use rules::{Limits, S};
use std::io::Write;

/// A table, in three lists as the calls take them, and its tree.
#[derive(Drop)]
struct Drawn<'a> {
    weights: &'a [u32],
    present: &'a [u64],
    absent: &'a [u64],
    tree: Tree,
}

impl<'a> Drawn<'a> {
    /// Opens a table. What the tree held before does not matter: here each record is an open leaf's. Of a refused table the tree has no nodes.
    fn open(weights: &'a [u32], present: &'a [u64], absent: &'a [u64]) -> Self {
        let mut tree = Tree {
            nodes: [record((LEAF, OPEN, 0, S)); RECORDS],
            used: RECORDS,
        };
        let _ = open(weights, present, absent, &mut tree);
        Drawn {
            weights,
            present,
            absent,
            tree,
        }
    }

    /// What the page is told of the tree.
    fn widest(&self) -> Option<usize> {
        widest(&self.tree.nodes)
    }

    /// One refinement more by a run, and what the page is then told.
    fn grown(&mut self) -> Option<usize> {
        let once = Limits {
            allowance: 0,
            budget: 1,
            mode: 0,
        };
        let _ = run(
            self.weights,
            self.present,
            self.absent,
            &mut self.tree,
            once,
        );
        self.widest()
    }
}

/// The tree of P4, from its opening on.
pub fn paper<W: Write>(out: &mut Output<W>) {
    let mut drawn = Drawn::open(&[500000000, 500000000, 200000000], &[3, 5], &[0, 0]);
    // 0: the root leaf, from 250000000 to 350000000.
    print(drawn.widest(), out);
    // 2: fault 0 is common; the left child has it alone, the right one {1} {2}, from 600000000 to 700000000.
    print(drawn.grown(), out);
    // none: by independence; both new leaves have one way.
    print(drawn.grown(), out);
}

/// Seven faults of 500000000 and the ways {0,1,4} {0,1,5} {0,~1,6} {~0,2} {~0,3}.
pub fn ties<W: Write>(out: &mut Output<W>) {
    let mut drawn = Drawn::open(&[500000000; 7], &[19, 35, 65, 4, 8], &[0, 0, 2, 1, 1]);
    // 1: by fault 0; the left child {1,4} {1,5} {~1,6} goes from 250000000 to 750000000, the right one {2} {3} from 750000000 to 1000000000.
    print(drawn.grown(), out);
    // 2: record 1 by fault 1; record 3 {4} {5} is as wide as record 2, but later. That it lies to the left is nothing to the page.
    print(drawn.grown(), out);
    // 2: the run took record 3, the leftmost; its children have one way each.
    print(drawn.grown(), out);
    // none: the run took record 2.
    print(drawn.grown(), out);
}

/// A table that is refused: the tree has no nodes, so `none`.
pub fn refused<W: Write>(out: &mut Output<W>) {
    print(Drawn::open(&[], &[], &[]).widest(), out);
}
