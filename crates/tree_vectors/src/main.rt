//! A test: works through each script of standard input, a table and calls on its tree, and prints a line for each answer and each place.
//! Rests on `dtree`, `numbers` and `output`. An independent implementation of the rules writes the input and the expected lines.
#![tactic(auto)]

mod damage;
mod lines;
mod places;
mod requests;
mod table;

use numbers::Numbers;
use output::Output;
use places::show;
use records::{NO_NODES, Tree};
use requests::Request;
use std::io;
use std::io::{Read, Write};
use table::Table;

/// Does what a line asks for and prints what it gives. The tree stands apart from where it is printed, since a call that is tried gets a copy.
fn answer<W: Write>(table: &Table, request: Request, tree: &mut Tree, out: &mut Output<W>) {
    match request {
        Request::Call(call) => table.call(call, tree, out),
        Request::OnDamaged(damage, call) => {
            damage.change(tree);
            table.call(call, tree, out);
            damage.undoing().change(tree);
        }
        Request::Places => show(tree, out),
        Request::Tried(call) => {
            let mut copy = *tree;
            table.call(call, &mut copy, out);
            show(&copy, out);
        }
    }
}

/// Reads one script and makes it, each line with the tree that the one before left. It starts with 1 if its table is opened, with 0 if the
/// tree of the script before is handed on.
fn script<R: Read + Drop, W: Write>(
    input: &mut Numbers<R, ()>,
    tree: &mut Tree,
    out: &mut Output<W>,
) {
    let opens = input.number() != 0;
    let table = Table::read(input);
    if opens {
        table.open(tree, out);
    }
    for _ in 0..input.number() {
        answer(&table, Request::read(input), tree, out);
    }
}

/// Makes all scripts.
fn main(rt: HostRuntime) {
    let mut input = Numbers::unbuffered(rt.reader());
    let mut out = Output(io::writer(&rt));
    let mut tree = NO_NODES;
    for _ in 0..input.number() {
        script(&mut input, &mut tree, &mut out);
    }
}
