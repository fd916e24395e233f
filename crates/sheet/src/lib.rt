//! Reading a sheet's bytes: the refusals, the head, a cue, its body and its table, for any bytes whatever.
//! Each function returns what the definition that its contract names says (`rules`, Sheet; specs/).
//! `fields` has the bytes as they come, `accepted` those that are a sheet; `parts` goes over what stands in them many times over.
#![tactic(auto)]

pub mod accepted;
pub mod contents;
pub mod fields;
pub mod head;
pub mod parts;
pub mod reader;
pub mod refusals;
pub mod rows;
pub mod table;
#[cfg(test)]
mod tests;
