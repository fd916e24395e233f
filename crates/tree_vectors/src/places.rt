//! Every place of a tree printed, found by the links from the root: a node before those below it, left before right.
//! Rests on the records of `records`. A link that leads outside the records is not followed.
ghost use Rattle.std.specs.Prelude.{◌+◌, ◌<◌, IfSome};
ghost use Rattle.records.specs.Records.{tree_records};

use arrayvec::ArrayVec;
use output::Output;
use records::{Node, RECORDS, Tree};
use std::fmt;
use std::io::Write;

/// The most records that wait: one more than were printed.
const WAITING: usize = RECORDS + 1;

/// The line of a place: leaf, independence, fault or common part as 1, 2, 3, 4, the fault, 1 for an open leaf, and the interval.
#[derive(Clone, Copy)]
struct Place(Node);

impl fmt::Display for Place {
    fn fmt<W: fmt::Write>(&self, f: &mut fmt::Formatter<W>) -> fmt::Result {
        let Node {
            kind,
            fault,
            live,
            low,
            high,
            ..
        } = self.0;
        write!(f, "{kind} {fault} {live} {low} {high}")
    }
}

/// The left child's record, if it and the right child's are records of the tree.
fn left_child(n: Node) -> Option<usize>
    ensures { IfSome result (λ left. left + 1 < tree_records) }
{
    n.left_child().filter(|&left| left < RECORDS - 1)
}

/// Prints a line for each place, at most as many as there are records. The records that are still to be printed wait, the next one last.
pub fn show<W: Write>(tree: &Tree, out: &mut Output<W>) {
    let mut waiting = ArrayVec::<usize, WAITING>::new();
    if tree.used != 0 {
        waiting.push(0);
    }
    'places: for _ in 0..RECORDS {
        let Some(at) = waiting.pop().filter(|&at| at < RECORDS) else {
            break;
        };
        let node = tree.nodes[at];
        writeln!(out, "{}", Place(node));
        if let Some(left) = left_child(node) {
            waiting.push(left + 1);
            waiting.push(left);
        }
    }
}
