//! What the lines of a script ask for, read from the input.
//! Rests on `numbers`, and on `rules` for what is asked for.
use super::damage::Damage;
use arrayvec::ArrayVec;
use numbers::Numbers;
use rules::{Kind, Limits, MOST_STEPS};
use std::io::Read;

/// The most steps of a place in the input: more than a tree has levels.
const STEPS: usize = MOST_STEPS + 6;

/// A call on a tree: a hand refinement or a run.
#[derive(Drop)]
pub enum Call {
    Refine {
        place: ArrayVec<u8, STEPS>,
        kind: Kind,
    },
    Run(Limits),
}

/// What a line asks for.
#[derive(Drop)]
pub enum Request {
    Call(Call),
    /// A call on a tree in which one number is changed, and changed back afterwards.
    OnDamaged(Damage, Call),
    /// All places printed.
    Places,
    /// A call and all places then, with the tree kept as it was.
    Tried(Call),
}

/// Reads what a hand refinement does: 0 for independence, 2 for the common part, else for a fault, then the fault's number. Not by `kind_asked`, as C has
/// it: there a number above 2 asks for a fault that no table has.
fn kind_read<R: Read + Drop>(input: &mut Numbers<R, ()>) -> Kind {
    let what = input.number();
    let fault = input.number();
    match what {
        0 => Kind::IndependentOr,
        2 => Kind::IndependentAnd,
        _ => Kind::Shannon(fault),
    }
}

impl Call {
    /// Reads the call of this code, 0 for a hand refinement and 1 for a run.
    fn read<R: Read + Drop>(code: u64, input: &mut Numbers<R, ()>) -> Self {
        match code {
            0 => {
                let steps = input.list_length(STEPS);
                Call::Refine {
                    place: input.array(steps, u8::MAX),
                    kind: kind_read(input),
                }
            }
            _ => Call::Run(Limits {
                allowance: input.number(),
                budget: input.number(),
                mode: input.number(),
            }),
        }
    }
}

impl Request {
    /// Reads a line: 0 or 1 for a call, 2 for a call on a damaged tree, 3 for the places, else for a call that is tried.
    pub fn read<R: Read + Drop>(input: &mut Numbers<R, ()>) -> Self {
        match input.number() {
            code if code < 2 => Request::Call(Call::read(code, input)),
            2 => {
                let damage = Damage::read(input);
                Request::OnDamaged(damage, Call::read(input.number(), input))
            }
            3 => Request::Places,
            _ => Request::Tried(Call::read(input.number(), input)),
        }
    }
}
