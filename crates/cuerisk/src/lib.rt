//! The C interface (include/cue_risk.h): trees, slices and spaces are lent and written where they are, answers are handed back as plain numbers.
//! Each export but `cue_version` calls `dtree`, `page`, `sheet`, `writer`, `report`, `csv_import`, `csv_export` or `captures`, and carries the promise
//! whole (specs/Told.antt); `cue_numbers` says which numbers stand for which answer. No enum crosses this border, and a number that a rule
//! judges crosses it whole, in 64 bits. Lists come one by one, since C has no slice of pairs.
#![tactic(auto, using(crate::proofs::Telling::telling))]

mod reports;

ghost use Rattle.std.specs.Prelude.{◌≡◌};
ghost use Rattle.rules.specs.Table.{table};
ghost use Rattle.records.specs.Lent.{tree_of};
ghost use Rattle.cue_numbers.specs.Numbers.{version, kind_asked};
ghost use Rattle.cuerisk.specs.Told.{OpeningTold, RefiningTold, RunningTold, SearchTold, ReadingTold, EntryTold, TableTold, lists, WritingTold, ReportingTold};
ghost use Rattle.captures.specs.Logs.{logs_in};
ghost use Rattle.captures.specs.Fractions.{fraction, fractions_in};
ghost use Rattle.cuerisk.specs.Told.{ImportingTold, ExportingTold, LogTold, LogsTold, AddingTold, WeighingTold, ComparingTold};

use captures::Fraction;
use cue_numbers::numbers::kind_asked;
use cue_numbers::{
    CueAnswer, CueEntry, CueFraction, CueOrder, CueSheet, CueSpot, CueTable, CueWeight,
};
use records::Node;
use reports::put_text;
use rules::Limits;
use sheet::fields::Raw;
use store::Words;
use writer::lists::Lists;

/// The version of these structs and calls, to be compared with that of the header.
#[unsafe(no_mangle)]
pub extern "C" fn cue_version() -> u64
    ensures promise { result ≡ version }
{
    6
}

/// Opens a table. What the tree held before does not matter; refused, it is left without nodes.
#[unsafe(no_mangle)]
pub extern "C" fn cue_open(
    tree: &mut Words,
    weights: &[u32],
    present: &[u64],
    absent: &[u64],
) -> CueAnswer
    ensures promise { OpeningTold (table weights.now present.now absent.now)
        (tree_of tree.new) result }
{
    CueAnswer::from(dtree::opening::open(weights, present, absent, tree))
}

/// Refines one leaf of the tree. The place is a list of steps from the root, 0 for left and 1 for right; `what` is 0 for
/// independence, 1 for the fault and 2 for the common part. Any other `what`, and any fault from 64 on, is refused by 20 where nothing before refuses.
#[unsafe(no_mangle)]
pub extern "C" fn cue_refine(
    tree: &mut Words,
    weights: &[u32],
    present: &[u64],
    absent: &[u64],
    place: &[u8],
    what: u64,
    fault: u64,
) -> CueAnswer
    ensures promise { RefiningTold (table weights.now present.now absent.now)
        (tree_of tree.old) place.now (kind_asked what fault) (tree_of tree.new) result }
{
    let kind = kind_asked(what, fault);
    CueAnswer::from(dtree::refining::refine(weights, present, absent, tree, place, kind))
}

/// Makes a run on the tree. The mode says what the allowance is: 0 a distance, 1 a share of the chance.
#[unsafe(no_mangle)]
pub extern "C" fn cue_run(
    tree: &mut Words,
    weights: &[u32],
    present: &[u64],
    absent: &[u64],
    allowance: u64,
    budget: u64,
    mode: u64,
) -> CueAnswer
    ensures promise { RunningTold (table weights.now present.now absent.now)
        (tree_of tree.old) (record { allowance = allowance; budget = budget; mode = mode }) (tree_of tree.new) result }
{
    let limits = Limits {
        allowance,
        budget,
        mode,
    };
    CueAnswer::from(dtree::runs::run(weights, present, absent, tree, limits))
}

/// Where the widest open leaf stands in any records, the first of equally wide ones.
#[unsafe(no_mangle)]
pub extern "C" fn cue_widest(records: &[Node]) -> CueSpot
    ensures promise { SearchTold records.now result }
{
    CueSpot::from(page::widest(records))
}

/// Reads a whole sheet.
#[unsafe(no_mangle)]
pub extern "C" fn cue_sheet_check(sheet: &[u8]) -> CueSheet
    ensures promise { ReadingTold sheet.now result }
{
    CueSheet::from(sheet::reader::read(sheet))
}

/// The cue at a position of a sheet's contents.
#[unsafe(no_mangle)]
pub extern "C" fn cue_sheet_cue(sheet: &[u8], position: usize) -> CueEntry
    ensures promise { EntryTold sheet.now position result }
{
    CueEntry::from(sheet::reader::cue_at(sheet, position))
}

/// The table of the cue at a position of a sheet's contents.
/// By cases: an answer with a table in it would be made for this call and taken apart in it.
#[unsafe(no_mangle)]
pub extern "C" fn cue_sheet_table(sheet: &[u8], position: usize) -> CueTable
    ensures promise { TableTold sheet.now position result }
{
    match sheet::reader::cue_at(sheet, position) {
        Ok(Some(entry)) => CueTable::from(Raw { bytes: sheet }.table(entry)),
        Ok(None) => CueTable::none(0, 1),
        Err(refusal) => CueTable::none(u64::from(refusal), 0),
    }
}

/// Writes the sheet that the lists give to the front of the space.
#[unsafe(no_mangle)]
pub extern "C" fn cue_sheet_write(
    weights: &[u32],
    numbers: &[u16],
    counts: &[u16],
    present: &[u64],
    absent: &[u64],
    allowance: u64,
    budget: u64,
    mode: u64,
    space: &mut [u8],
) -> CueAnswer
    ensures promise { WritingTold (lists weights.now numbers.now counts.now
        present.now absent.now (record { allowance = allowance; budget = budget; mode = mode })) space.old space.new result }
{
    let lists = Lists {
        weights,
        numbers,
        counts,
        present,
        absent,
        limits: Limits {
            allowance,
            budget,
            mode,
        },
    };
    CueAnswer::from(writer::write(lists, space))
}

/// Puts the text that is printed for the bytes, read as a sheet, to the front of the space.
#[unsafe(no_mangle)]
pub extern "C" fn cue_sheet_report(sheet: &[u8], space: &mut [u8]) -> CueAnswer
    ensures promise { ReportingTold sheet.now space.old space.new result }
{
    CueAnswer::from(put_text(sheet, space))
}

/// Puts the bytes of the sheet that a text says to the front of the space.
#[unsafe(no_mangle)]
pub extern "C" fn cue_csv_import(text: &[u8], space: &mut [u8]) -> CueAnswer
    ensures promise { ImportingTold text.now space.old space.new result }
{
    CueAnswer::from(csv_import::import(text, space))
}

/// Puts the text of a sheet to the front of the space.
#[unsafe(no_mangle)]
pub extern "C" fn cue_csv_export(sheet: &[u8], space: &mut [u8]) -> CueAnswer
    ensures promise { ExportingTold sheet.now space.old space.new result }
{
    CueAnswer::from(csv_export::export(sheet, space))
}

/// Counts one log, of any length.
#[unsafe(no_mangle)]
pub extern "C" fn cue_log(log: &[u8]) -> CueFraction
    ensures promise { LogTold log.now result }
{
    CueFraction::from(captures::logs::log(log))
}

/// Counts several logs, whose bytes stand one behind the other.
#[unsafe(no_mangle)]
pub extern "C" fn cue_logs(bytes: &[u8], lengths: &[u64]) -> CueFraction
    ensures promise { LogsTold (logs_in lengths.now bytes.now) result }
{
    CueFraction::from(captures::logs::logs(bytes, lengths))
}

/// Adds the fractions that two lists give.
#[unsafe(no_mangle)]
pub extern "C" fn cue_fractions(discarded: &[u64], judged: &[u64]) -> CueFraction
    ensures promise { AddingTold (fractions_in discarded.now judged.now) result }
{
    CueFraction::from(captures::fractions::total(discarded, judged))
}

/// The weight of a fraction.
#[unsafe(no_mangle)]
pub extern "C" fn cue_fraction_weight(discarded: u64, judged: u64) -> CueWeight
    ensures promise { WeighingTold (fraction discarded judged) result }
{
    CueWeight::from(Fraction { discarded, judged }.weight())
}

/// Compares a fraction with another.
#[unsafe(no_mangle)]
pub extern "C" fn cue_fraction_compare(
    discarded: u64,
    judged: u64,
    other_discarded: u64,
    other_judged: u64,
) -> CueOrder
    ensures promise { ComparingTold (fraction discarded judged) (fraction other_discarded other_judged) result }
{
    let other = Fraction {
        discarded: other_discarded,
        judged: other_judged,
    };
    CueOrder::from(Fraction { discarded, judged }.compare(other))
}
