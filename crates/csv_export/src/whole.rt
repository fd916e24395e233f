//! The whole text of an accepted sheet: the limits, the weights, the records of the cues, one behind the other.
//! Rests on the definitions of Parts and on `csv_text`, Texts.
ghost use Rattle.std.specs.Prelude.{◌≡◌, ◌∷◌};
ghost use Rattle.rules.specs.Text.{decimal};
ghost use Rattle.writer.specs.Pieces.{Room, Wrote};
ghost use Rattle.csv_text.specs.Texts.{further_fields, mode_fields, run_record, weights_record};
ghost use Rattle.csv_export.specs.Parts.{ended, entries_text, sheet_text};

use super::pieces::{END, put_entry};
use decimal::digits_of;
use rules::Limits;
use sheet::accepted::Sheet;
use sheet::parts::Parts;
use writer::output::Out;

/// A comma and a number.
fn put_field(out: &mut Out, number: u64)
    requires { Room out.old (44 ∷ decimal number) }
    ensures { Wrote out.old (44 ∷ decimal number) out.new }
{
    out.push(b',');
    out.extend_from_slice(digits_of(number).as_slice());
}

/// The mode, where it is not 0.
#[tactic(auto, using(crate::proofs::Records::no_mode, crate::proofs::Records::some_mode, std::proofs::lemmas::Grind::common_steps))]
fn put_mode(out: &mut Out, mode: u64)
    requires { Room out.old (further_fields (mode_fields mode)) }
    ensures { Wrote out.old (further_fields (mode_fields mode)) out.new }
{
    if mode != 0 {
        put_field(out, mode);
    }
}

/// The limits, with the end of their record.
#[tactic(auto, using(crate::proofs::Measured::limits_counted))]
fn put_limits(out: &mut Out, limits: Limits)
    requires { Room out.old (ended (run_record limits)) }
    ensures { Wrote out.old (ended (run_record limits)) out.new }
{
    out.extend_from_slice(b"run");
    put_field(out, limits.allowance);
    put_field(out, limits.budget);
    put_mode(out, limits.mode);
    out.extend_from_slice(END);
}

/// The weights, with the end of their record.
#[tactic(auto, using(crate::proofs::Records::weights_bytes), unfolding(csv_text::specs::Texts::further_fields, rules::specs::Text::bytes))]
fn put_weights(out: &mut Out, weights: Parts<'_, u32>)
    requires { Room out.old (ended (weights_record weights)) }
    ensures { Wrote out.old (ended (weights_record weights.entry)) out.new }
{
    out.extend_from_slice(b"weights");
    for weight in weights {
        put_field(out, u64::from(weight));
    }
    out.extend_from_slice(END);
}

/// The records of all entries.
#[tactic(auto, using(crate::proofs::Entries::entries_apart))]
fn put_entries(out: &mut Out, sheet: Sheet<'_>)
    requires { Room out.old (entries_text sheet.bytes.now) }
    ensures { Wrote out.old (entries_text sheet.entry.bytes.now) out.new }
{
    for entry in sheet.entries() {
        put_entry(out, sheet, entry);
    }
}

/// The text.
pub fn put_text(out: &mut Out, sheet: Sheet<'_>)
    requires { Room out.old (sheet_text sheet.bytes.now) }
    ensures { Wrote out.old (sheet_text sheet.entry.bytes.now) out.new }
{
    put_limits(out, sheet.raw().limits());
    put_weights(out, sheet.raw().weights());
    put_entries(out, sheet);
}
