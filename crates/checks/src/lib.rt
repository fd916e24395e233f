//! The refusals of tables, limits and sheets that are tests on numbers and lists, as code.
//! Each test returns what the definition of the crate `rules` that its contract names says, for slices of any length.
#![tactic(auto)]

pub mod accepted;
pub mod limits;
pub mod lists;
pub mod table;
pub mod ways;
