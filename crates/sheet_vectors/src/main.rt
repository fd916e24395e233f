//! A test: prints a name and the report of each of its built-in sheets, sound and refused ones.
//! Rests on `report` and `output`, and on `writer` for the sound sheets. An independent implementation builds the same sheets by its own code and writes the
//! expected lines.
#![tactic(auto)]

mod cases;
mod longest;

use cases::{CASES, Case, sheet_of};
use longest::put_longest;
use output::Output;
use report::report;
use std::io;
use std::io::Write;
use streams::LONGEST_SHEET;

/// The room for the longest sheet, with a zero behind.
const ROOM: usize = LONGEST_SHEET + 1;

/// The first bytes of a list, or all where it has no more.
fn front(bytes: &[u8], length: usize) -> &[u8] {
    bytes.get(..length).unwrap_or(bytes)
}

/// Prints the name and the report of a sheet.
fn show<W: Write>(name: &str, sheet: &[u8], out: &mut Output<W>) {
    writeln!(out, "{name}:");
    out.write_all(report(sheet).as_slice());
}

/// All sheets: those of the cases, then the longest sheet, and with a byte more or less.
fn main(rt: HostRuntime) {
    let mut out = Output(io::writer(&rt));
    for (name, length, changes) in CASES {
        show(name, front(&sheet_of(changes), *length), &mut out);
    }
    let mut sheet = [0; ROOM];
    put_longest(&mut sheet);
    show("49612 bytes", front(&sheet, LONGEST_SHEET), &mut out);
    show("49613 bytes", &sheet, &mut out);
    show("49611 bytes", front(&sheet, LONGEST_SHEET - 1), &mut out);
}
