//! One refinement of a lent tree, on its records: the leaf's record is refined, two leaves are added, and the intervals above are joined anew.
//! Rests on the definitions of `records`, Growing. The tree is written where it is lent.
#![tactic(auto)]

pub mod raise;
pub mod refine;
