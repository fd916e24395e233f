//! The program: reads one risk sheet on standard input and prints a line for each cue, or why the sheet is refused.
//! Rests on `report`, whose contract says what the text is, and on `streams`; here it is only read for and written.
#![tactic(auto)]

use report::report;
use std::io::Write;
use streams::{SHEET_READ, read_front};

/// It has no way to fail: a read that fails is taken for the end, output that cannot be written is lost, and no memory is asked for.
fn main(rt: HostRuntime) {
    let mut space = [0; SHEET_READ];
    let length = read_front(&mut rt.stdin(), &mut space);
    let _ = rt.stdout().write_all(report(&space[..length]).as_slice());
}
