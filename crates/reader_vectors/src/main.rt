//! A test: a reader is driven past the last cue of the sheet of RULES 11.7, which standard input has, and over that sheet cut short or changed in one byte.
//! A line for each call: number, 1 past the last, cue, ways, start of the body. Each expected line follows from RULES 7 and 8, as said beside its sheet.
#![tactic(auto)]

mod lines;

use cue_numbers::CueEntry;
use cue_reader::call_after;
use lines::Line;
use output::Output;
use std::io;
use std::io::{Read, Write};

/// The length of the sheet.
const WHOLE: usize = 72;

/// How many of its bytes a case has, and a byte that it changes: where, and to what. A tuple: rows of field names would be no plainer.
type Case = (usize, Option<(usize, u8)>);

/// The sheets over which a reader is driven for two calls. All but the first are refused, and the second call gives the number again.
const CASES: &[Case] = &[
    // Accepted: the last two bytes of the head are 1. The calls give the two cues.
    (WHOLE, Some((10, 1))),
    // Refused before their contents are looked at.
    // 1: 11 bytes (RULES 11.9).
    (11, None),
    // 2: 65 faults; no cues.
    (WHOLE, Some((0, 65))),
    (WHOLE, Some((2, 0))),
    // 3: the last two bytes of the head are 2; 256, by the higher of them.
    (WHOLE, Some((10, 2))),
    (WHOLE, Some((11, 1))),
    // 4: head, contents of 2 cues and weights of 3 faults have 40 bytes together.
    (39, None),
    // For their contents.
    // 5: the second cue number is 7 as well.
    (WHOLE, Some((20, 7))),
    // 6: cue 7 counts 129 ways.
    (WHOLE, Some((14, 129))),
    // 7: cue 9's body is said to be at 71; the body before it ends at 72.
    (WHOLE, Some((24, 71))),
    // 8: the last body ends at 72.
    (71, None),
    // For a weight, a way or a limit.
    // 10: the highest byte of the first weight, 500000000, becomes 60: 1020093696.
    (WHOLE, Some((31, 60))),
    // 12: the first way names fault 3, of faults 0 to 2.
    (WHOLE, Some((40, 8))),
    // 13: the first way names fault 0 present and absent.
    (WHOLE, Some((48, 1))),
    // 14: the highest byte of the allowance, 10000000, becomes 60: 1016632960.
    (WHOLE, Some((7, 60))),
    // 15: the higher byte of the budget, 40, becomes 1: 296.
    (WHOLE, Some((9, 1))),
];

/// Prints the answers of the first calls of a reader opened on the bytes.
fn drive<W: Write>(sheet: &[u8], calls: usize, out: &mut Output<W>) {
    for made in 0..calls {
        writeln!(out, "{}", Line(CueEntry::from(call_after(sheet, made))));
    }
}

/// Reads the sheet and drives readers over it and over the refused ones.
fn main(rt: HostRuntime) {
    let mut sheet = [0; WHOLE];
    // A byte that cannot be read is 0.
    let _ = rt.reader().read_exact(&mut sheet);
    let mut out = Output(io::writer(&rt));
    // Cue 7 with 2 ways at 40, cue 9 with none at 72; past the last, and past it again, cue 0 with 0 ways.
    drive(&sheet, 4, &mut out);
    for &(length, change) in CASES {
        let mut other = sheet;
        if let Some((at, byte)) = change {
            other[at] = byte;
        }
        drive(&other[..length], 2, &mut out);
    }
}
