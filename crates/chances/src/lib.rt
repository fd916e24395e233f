//! Chances in billionths, computed: products, means and either of two events, rounded down or up, and the chance of a way.
//! Each function returns what the definition of the crate `rules` that its contract names says.
#![tactic(auto)]

pub mod bits;
pub mod rounding;
pub mod weights;
