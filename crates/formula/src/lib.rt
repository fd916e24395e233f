//! A leaf's formula, computed: its two ends, its groups, its common part, its children, and the fault that a run fixes.
//! Each function returns what the definition of the crate `rules` that its contract names says; numbers are billionths.
#![tactic(auto)]

pub mod child;
pub mod choice;
pub mod common;
pub mod group;
pub mod leaf;

use chances::rounding::Chance;
use clauses::Clauses;

/// A leaf's two ends, and whether the leaf is open.
#[derive(Clone, Copy)]
pub struct Ends {
    pub low: Chance,
    pub high: Chance,
    pub open: bool,
}

/// What picking has made of some ways of a leaf: the faults that the kept ones name, as a word, and the leaf's two ends with these ways.
#[derive(Clone, Copy)]
struct Picked {
    held: u64,
    low: Chance,
    high: Chance,
}

/// The ways of the two children of a refined leaf.
#[derive(Clone, Copy)]
pub struct Children<'a> {
    pub left: Clauses<'a>,
    pub right: Clauses<'a>,
}
