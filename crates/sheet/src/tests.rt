//! A table changed by hand, and set where it held others before, which no program does: what was put in comes out. No proof file is needed.
//! Rests on the toolchain's `std::test`.
use super::fields::Raw;
use super::table::TableArrays;
use rules::{Entry, MOST_FAULTS, MOST_WAYS, Words};

/// A sheet of two faults and one cue with one way: the weights 3 and 5, the words 1 and 2.
const SHEET: &[u8] = &[
    2, 0, 1, 0, 0, 0, 0, 0, 0, 0, 0, 0, 7, 0, 1, 0, 28, 0, 0, 0, 3, 0, 0, 0, 5, 0, 0, 0, 1, 0, 0,
    0, 0, 0, 0, 0, 2, 0, 0, 0, 0, 0, 0, 0,
];

/// Its cue.
const CUE: Entry = Entry {
    cue: 7,
    ways: 1,
    start: 28,
};

#[test]
fn pushed_and_popped(rt: HostRuntime) {
    let mut table = TableArrays::default();
    table.push_weight(11);
    table.push_weight(13);
    table.push_way(Words {
        present: 17,
        absent: 19,
    });
    table.weights[0] = 23;
    assert_eq!(rt; table.weights(), [23, 13].as_slice());
    assert_eq!(rt; table.pop_weight(), Some(13));
    assert_eq!(rt; table.pop_weight(), Some(23));
    assert_eq!(rt; table.pop_weight(), None);
    assert_eq!(rt; table.present(), [17].as_slice());
    table.present[0] = 29;
    assert_eq!(rt;
        table.pop_way(),
        Some(Words {
            present: 29,
            absent: 19
        })
    );
    assert_eq!(rt; table.pop_way(), None);
}

#[test]
fn set_over_others(rt: HostRuntime) {
    let raw = Raw { bytes: SHEET };
    let mut table = TableArrays::default();
    table.push_weight(11);
    table.push_way(Words {
        present: 17,
        absent: 19,
    });
    table.set_weights(raw.weights());
    assert_eq!(rt; table.weights(), [3, 5].as_slice());
    assert_eq!(rt; table.present(), [17].as_slice());
    table.set_ways(raw.ways(CUE));
    assert_eq!(rt; table.weights(), [3, 5].as_slice());
    assert_eq!(rt; table.present(), [1].as_slice());
    assert_eq!(rt; table.absent(), [2].as_slice());
    table.weights = [0; MOST_FAULTS];
    table.faults = 0;
    assert_eq!(rt; table.weights(), [0; 0].as_slice());
    table.present = [0; MOST_WAYS];
    table.absent = [0; MOST_WAYS];
    table.ways = 0;
    assert_eq!(rt; table.present(), [0; 0].as_slice());
}
