//! One number of a tree changed before a call, so that the call has to refuse the tree, and changed back afterwards.
//! Rests on `records`. Fields are numbered in the order in which a record lists them, from 0; the number after them is the count of records in use.
use numbers::Numbers;
use records::{Node, Tree};
use std::io::Read;

/// The fields of a record.
const FIELDS: usize = 14;

/// Which number is changed: the record, the field, and what is added to it. Sums wrap around, so that only 0 changes nothing.
/// The field stays a number: an enum of 15 names would want a decoding of its own, and be no plainer.
#[derive(Clone, Copy)]
pub struct Damage {
    record: usize,
    field: usize,
    by: u64,
}

impl Damage {
    /// Reads a damage.
    pub fn read<R: Read + Drop>(input: &mut Numbers<R, ()>) -> Self {
        Damage {
            record: input.number() as usize,
            field: input.number() as usize,
            by: input.number(),
        }
    }

    /// What changes a damaged number back.
    pub fn undoing(self) -> Self {
        Damage {
            by: self.by.wrapping_neg(),
            ..self
        }
    }

    /// Damages a record.
    fn change_record(self, node: &mut Node) {
        let word = match self.field {
            0 => &mut node.kind,
            1 => &mut node.fault,
            2 => &mut node.live,
            3 => return add(&mut node.parent, self.by),
            4 => return add(&mut node.left, self.by),
            5 => &mut node.waysa,
            6 => &mut node.waysb,
            7 => &mut node.present,
            8 => &mut node.absent,
            9 => &mut node.out,
            10 => &mut node.low,
            11 => &mut node.high,
            12 => &mut node.ownlow,
            _ => &mut node.ownhigh,
        };
        *word = word.wrapping_add(self.by);
    }

    /// Damages the tree. A record that there is not is left alone; past the last field, every number is the count.
    pub fn change(self, tree: &mut Tree) {
        if self.field >= FIELDS {
            add(&mut tree.used, self.by);
        } else if let Some(node) = tree.nodes.get_mut(self.record) {
            self.change_record(node);
        }
    }
}

/// Adds to a position.
fn add(position: &mut usize, by: u64) {
    *position = position.wrapping_add(by as usize);
}
