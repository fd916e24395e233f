//! A test: lends records that no tree has, and the records of trees, and prints what the page is told: a position or `none`.
//! Rests on `page` and `dtree`. Beside each case stands why its line is expected.
#![tactic(auto)]

mod drawn;
mod lent;

use output::Output;
use std::io;
use std::io::Write;

/// Prints what the page is told.
fn print<W: Write>(widest: Option<usize>, out: &mut Output<W>) {
    match widest {
        Some(position) => writeln!(out, "{position}"),
        None => writeln!(out, "none"),
    }
}

/// All cases.
fn main(rt: HostRuntime) {
    let mut out = Output(io::writer(&rt));
    lent::alike(&mut out);
    lent::mixed(&mut out);
    lent::as_many_as_a_tree(&mut out);
    drawn::paper(&mut out);
    drawn::ties(&mut out);
    drawn::refused(&mut out);
}
