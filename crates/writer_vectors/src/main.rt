//! A test of the writer: writes a sheet from each set of lists of standard input, reads it back and writes what was read.
//! Rests on `writer` and `sheet`. An independent implementation writes the input and the expected lines.
#![tactic(auto)]

mod gathered;
mod lines;

use gathered::Gathered;
use lines::print_written;
use numbers::Numbers;
use output::Output;
use rules::Refusal;
use sheet::accepted::Sheet;
use std::io;
use std::io::{Read, Write};
use streams::LONGEST_SHEET;

/// The most bytes of a case's name.
const NAME: usize = 80;

/// The length of a space: a little more than that of the longest sheet.
const SPACE: usize = LONGEST_SHEET + 8;

/// What each byte of a space is before anything is written.
const BLANK: u8 = 170;

/// Prints the name that stands before the next colon, and the colon.
fn print_name<R: Read + Drop, W: Write>(input: &mut Numbers<R, ()>, out: &mut Output<W>) {
    for _ in 0..NAME {
        let byte = input.byte();
        out.write_all(&[byte]);
        if byte == b':' {
            break;
        }
    }
}

/// Reads a sheet, prints what reading finds and writes it into the space; a refused sheet is not written.
fn write_again<W: Write>(
    sheet: &[u8],
    space: &mut [u8],
    out: &mut Output<W>,
) -> Result<u64, Refusal> {
    let sheet = Sheet::read(sheet)?;
    Gathered::read_back(sheet, out).write(space)
}

/// Reads a written sheet back and writes what was read to another space.
fn back<W: Write>(sheet: &[u8], out: &mut Output<W>) {
    let mut space = [BLANK; SPACE];
    let answer = write_again(sheet, &mut space, out);
    write!(out, "again:");
    print_written(answer, &space, out);
}

/// Makes a case: its name, its lists, and the length lent of a space. Prints what is in the space after writing, and reads back an accepted
/// sheet.
fn case<R: Read + Drop, W: Write>(input: &mut Numbers<R, ()>, out: &mut Output<W>) {
    print_name(input, out);
    let gathered = Gathered::read(input);
    let lent = input.list_length(SPACE);
    let mut space = [BLANK; SPACE];
    let answer = gathered.write(&mut space[..lent]);
    print_written(answer, &space, out);
    if let Ok(length) = answer
        && let Some(sheet) = space.get(..length as usize)
    {
        back(sheet, out);
    }
}

/// Makes all cases.
fn main(rt: HostRuntime) {
    let mut input = Numbers::unbuffered(rt.reader());
    let mut out = Output(io::writer(&rt));
    for _ in 0..input.number() {
        case(&mut input, &mut out);
    }
}
