//! The library's calls on d-trees: every call takes any input, and answers or refuses it by the rules. The tree is lent and written in place;
//! a run afresh makes its own. Rests on `records`, Library, where each call's tree and answer are defined, and on `store` for a tree in either form.
#![tactic(auto)]

pub mod afresh;
pub mod opening;
pub mod refining;
pub mod runs;
pub mod sixteen;
