//! The program that makes a sheet of a text: reads the text on standard input and writes the sheet's bytes to standard output.
//! Rests on `csv_import`, whose contract says what the bytes are, and on `streams`.
//! A refusal is one line on standard error, and then standard output stays empty.
#![tactic(auto)]

use csv_import::import;
use std::io::Write;
use streams::{LONGEST_SHEET, read_front};

/// The longest text that is taken has 1,180,521 bytes, every field quoted. One more is read, so that a longer one is not taken for its front.
const MOST: usize = 1180522;

/// It has no way to fail: a read that fails is taken for the end, output that cannot be written is lost, and no memory is asked for.
fn main(rt: HostRuntime) {
    let mut text = [0; MOST];
    let mut sheet = [0; LONGEST_SHEET];
    let read = read_front(&mut rt.stdin(), &mut text);
    let _ = match import(&text[..read], &mut sheet) {
        Ok(length) => rt.stdout().write_all(&sheet[..length as usize]),
        Err(error) => eprintln!(rt; "{error}"),
    };
}
