//! The ways of a leaf without a copy of them: which of a table's ways they are, and the faults that they lost. Rests on `rules`, Leaf and Group.
//! `sets` has the numbers, `lost` the faults, `taking` the ways one after the other, `keeping` those that pass a test, `staying` those that say
//! something new.
#![tactic(auto)]

pub mod keeping;
pub mod lost;
pub mod sets;
pub mod staying;
pub mod taking;

ghost use Rattle.std.specs.Prelude.{◌≡◌, true, ℕ, ◌<◌, length};
ghost use Rattle.clauses.specs.Numbers.{is_in};

use checks::accepted::Rows;
use lost::Gone;
use sets::Numbers;

/// The ways of a leaf, in number order: those of a table's rows with these numbers, less the faults that are gone.
#[derive(Clone, Copy)]
pub struct Clauses<'a> {
    pub rows: Rows<'a>,
    pub numbers: Numbers,
    pub gone: Gone,
    ghost inside: { (i : ℕ) → is_in numbers i ≡ true → i < length rows.present.now },
}
