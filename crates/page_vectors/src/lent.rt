//! Records that no tree has, lent to the search. Rests on `page` and the records of `records`. Ends stand in figures, which a reader sets beside each
//! other, row by row; a name would hide which is wider.
use super::print;
use output::Output;
use page::widest;
use records::{INDEPENDENT_AND, INDEPENDENT_OR, LEAF, NO_NODES, Node, RECORDS, SHANNON};
use std::io::Write;

/// What a case says of a record: its kind, its mark, its low and its high. A tuple: no call may stand in a constant, and rows of field names are no
/// plainer.
pub type Fields = (u64, u64, u64, u64);

/// The kind of a blank.
const BLANK: u64 = 0;

/// The mark of an open leaf.
pub const OPEN: u64 = 1;

/// The mark of a closed leaf, and of a blank.
const CLOSED: u64 = 0;

/// More records than a tree has.
const MANY: usize = 600;

/// Records that are all the same, and how many are lent.
const ALIKE: &[(Fields, usize)] = &[
    // None counts, `none` each time. No record is lent.
    ((LEAF, OPEN, 5, 7), 0),
    // Blanks.
    ((BLANK, CLOSED, 0, 0), MANY),
    // Closed leaves, though they are wide.
    ((LEAF, CLOSED, 0, 1000000000), RECORDS),
    // A mark that is neither 0 nor 1.
    ((LEAF, 2, 0, 1000000000), MANY),
    // The mark of an open leaf on records that are no leaves: a blank, and the three kinds of inner nodes.
    ((BLANK, OPEN, 0, 1000000000), MANY),
    ((INDEPENDENT_OR, OPEN, 0, 1000000000), MANY),
    ((SHANNON, OPEN, 0, 1000000000), MANY),
    ((INDEPENDENT_AND, OPEN, 0, 1000000000), MANY),
    // Low equal to high, and above it.
    ((LEAF, OPEN, 7, 7), MANY),
    ((LEAF, OPEN, 8, 7), MANY),
    ((LEAF, OPEN, u64::MAX, 0), MANY),
    // All are equally wide: the first, 0 each time.
    ((LEAF, OPEN, 5, 7), 1),
    ((LEAF, OPEN, 0, 1), RECORDS),
    ((LEAF, OPEN, 0, u64::MAX), MANY),
];

/// Of `MANY` records those that are no blanks, some of which count, and where they stand.
const MIXED: &[(usize, Fields)] = &[
    (0, (INDEPENDENT_OR, OPEN, 0, 1000000000)),
    (1, (LEAF, CLOSED, 0, 1000000000)),
    (2, (LEAF, OPEN, 1000000000, 0)),
    (3, (LEAF, OPEN, 10, 20)),
    (5, (LEAF, OPEN, 0, 9)),
    (7, (LEAF, OPEN, 990, 1000)),
    (510, (LEAF, OPEN, 3, 14)),
    (511, (LEAF, OPEN, 0, 11)),
    (598, (LEAF, OPEN, 0, 12)),
    (599, (LEAF, OPEN, 0, u64::MAX)),
];

/// How many of them are lent.
const FRONTS: &[usize] = &[
    // none: the first three are an inner node, a closed leaf and one with low above high.
    3,
    // 3: the first that counts, and then 5 is narrower, and 7 as wide but later.
    4, 6, 8,
    // 3: record 510 is not yet lent. Then 510, width 11 against 10; and 511 is as wide but later.
    510, 511, 512,
    // 598, width 12; and then 599, the last and as wide as can be.
    599, MANY,
];

/// A record with these fields and zeros besides.
pub fn record((kind, live, low, high): Fields) -> Node {
    Node {
        kind,
        live,
        low,
        high,
        ..NO_NODES.nodes[0]
    }
}

/// Records that are all the same.
pub fn alike<W: Write>(out: &mut Output<W>) {
    for &(fields, count) in ALIKE {
        let records = [record(fields); MANY];
        print(widest(&records[..count]), out);
    }
}

/// Some of the records count; more and more of them are lent.
pub fn mixed<W: Write>(out: &mut Output<W>) {
    let mut records = [record((BLANK, CLOSED, 0, 0)); MANY];
    for &(at, fields) in MIXED {
        records[at] = record(fields);
    }
    for &count in FRONTS {
        print(widest(&records[..count]), out);
    }
}

/// As many records as a tree has.
pub fn as_many_as_a_tree<W: Write>(out: &mut Output<W>) {
    let mut records = [record((BLANK, CLOSED, 0, 0)); RECORDS];
    // none: blanks.
    print(widest(&records), out);
    // 510: the one that counts.
    records[510] = record((LEAF, OPEN, 0, 1));
    print(widest(&records), out);
    // 0: as wide and earlier.
    records[0] = record((LEAF, OPEN, 999999999, 1000000000));
    print(widest(&records), out);
}
