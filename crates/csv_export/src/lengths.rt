//! How long the text of a sheet is, measured before anything is written. Each length comes with a bound, so that no sum can wrap.
//! What measures a piece stands apart from what writes it, and no trait has both: a way is measured by counting the bits of its words and written
//! fault by fault, and a trait would want a struct for each piece, to hold what writing it asks for. It would be no plainer.
//! Rests on the definitions of Parts and on `csv_text`, Texts.
ghost use Rattle.std.specs.Prelude.{◌≡◌, ◌∷◌, ◌+◌, ◌*◌, ◌≤◌, length};
ghost use Rattle.rules.specs.Text.{decimal};
ghost use Rattle.csv_text.specs.Texts.{further_fields, mode_fields, run_record, weights_record};
ghost use Rattle.csv_export.specs.Parts.{faults_text, entry_text, ended, entries_text, sheet_text};

use decimal::digits_of;
use rules::{Entry, Limits, Words};
use sheet::accepted::Sheet;
use sheet::parts::Parts;

/// A comma and a number.
fn field_length(number: u64) -> usize
    ensures value { result ≡ length (44 ∷ decimal number) }
    ensures most { result ≤ 21 }
{
    1 + digits_of(number).len()
}

/// What stands behind the cue: a comma before each fault, a minus before one that is absent,
/// and one digit for each of the first nine faults, two for any other.
#[tactic(auto, using(crate::proofs::Naming::empty_way, crate::proofs::Measured::way_bits, crate::proofs::Measured::few_bits))]
fn faults_length(way: Words) -> usize
    ensures value { result ≡ length (faults_text way) }
    ensures most { result ≤ 448 }
{
    if (way.present | way.absent) == 0 {
        return 2;
    }
    let present = 2 * way.present.count_ones() + (way.present >> 9).count_ones();
    let absent = 3 * way.absent.count_ones() + (way.absent >> 9).count_ones();
    (present + absent) as usize
}

/// The records of an entry.
#[tactic(auto, using(crate::proofs::Records::entry_alone, std::proofs::lemmas::Grind::common_steps))]
fn entry_length(sheet: Sheet<'_>, entry: Entry) -> usize
    ensures value { result ≡ length (entry_text sheet.entry.bytes.now entry) }
    ensures most { result ≤ 470 * 65535 }
{
    // The digits of the cue and the end of the record.
    let ends = digits_of(u64::from(entry.cue)).len() + 2;
    if entry.ways == 0 {
        return ends;
    }
    sheet
        .raw()
        .ways(entry)
        .map(|way| ends + faults_length(way))
        .sum()
}

/// The records of all entries.
fn entries_length(sheet: Sheet<'_>) -> usize
    ensures value { result ≡ length (entries_text sheet.entry.bytes.now) }
    ensures most { result ≤ 24 * (470 * 65535) }
{
    sheet
        .entries()
        .map(|entry| entry_length(sheet, entry))
        .sum()
}

/// The mode, which is written where it is not 0.
#[tactic(auto, using(crate::proofs::Records::no_mode, crate::proofs::Records::some_mode))]
fn mode_length(mode: u64) -> usize
    ensures value { result ≡ length (further_fields (mode_fields mode)) }
    ensures most { result ≤ 21 }
{
    if mode == 0 { 0 } else { field_length(mode) }
}

/// The limits, with the end of their record.
#[tactic(auto, using(crate::proofs::Measured::limits_counted))]
fn limits_length(limits: Limits) -> usize
    ensures value { result ≡ length (ended (run_record limits)) }
    ensures most { result ≤ 68 }
{
    // The word `run` and the end of the record take 5 bytes.
    5 + field_length(limits.allowance) + field_length(limits.budget) + mode_length(limits.mode)
}

/// The weights, with the end of their record.
fn weights_length(weights: Parts<'_, u32>) -> usize
    requires { length weights ≤ 64 }
    ensures value { result ≡ length (ended (weights_record weights.entry)) }
    ensures most { result ≤ 9 + 21 * 64 }
{
    let fields: usize = weights.map(|weight| field_length(u64::from(weight))).sum();
    // The word `weights` and the end of the record take 9 bytes.
    9 + fields
}

/// The text.
#[tactic(auto, using(crate::proofs::Entries::few_weights, std::proofs::lemmas::Grind::common_steps))]
pub fn text_length(sheet: Sheet<'_>) -> usize
    ensures { result ≡ length (sheet_text sheet.entry.bytes.now) }
{
    let limits = limits_length(sheet.raw().limits());
    let weights = weights_length(sheet.raw().weights());
    limits + weights + entries_length(sheet)
}
