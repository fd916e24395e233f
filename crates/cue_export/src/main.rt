//! The program that makes a text of a sheet: reads the sheet on standard input and writes its text to standard output.
//! Rests on `csv_export`, whose contract says what the text is, and on `streams`.
//! A refusal is one line on standard error, and then standard output stays empty.
#![tactic(auto)]

use csv_export::export;
use std::io::Write;
use streams::{SHEET_READ, read_front};

/// The length of the longest text.
const LONGEST: usize = 781023;

// As in cue_import: one function for both would be handed two spaces and the call, which is all that either says.
/// It has no way to fail: a read that fails is taken for the end, output that cannot be written is lost, and no memory is asked for.
fn main(rt: HostRuntime) {
    let mut sheet = [0; SHEET_READ];
    let mut text = [0; LONGEST];
    let read = read_front(&mut rt.stdin(), &mut sheet);
    let _ = match export(&sheet[..read], &mut text) {
        Ok(length) => rt.stdout().write_all(&text[..length as usize]),
        Err(refusal) => eprintln!(rt; "{refusal}"),
    };
}
