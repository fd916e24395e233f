//! Weights from captures: the types that its definitions and its code share (docs/RULES.md, 14).
//! logs.rt counts what a node heard, fractions.rt adds fractions, compares them and makes weights of them.
//! Rests on the definitions of specs/, and of `rules` on the billion and on the form of refusals alone.
#![tactic(auto)]

pub mod fractions;
pub mod logs;

/// The most packets judged in a fraction: any two numbers up to it have a product below 2^64.
pub const LIMIT: u64 = 4000000000;

/// A log while it is heard: the last accepted number, if a packet came, and the packets discarded and judged so far.
#[derive(Clone, Copy, PartialEq, Eq, Debug)]
pub struct Log {
    pub last: Option<u8>,
    pub discarded: u64,
    pub judged: u64,
}

/// A fraction: discarded of judged packets. The default is 0 of 0, the sum of none.
#[derive(Clone, Copy, Default, PartialEq, Eq, Debug)]
pub struct Fraction {
    pub discarded: u64,
    pub judged: u64,
}
