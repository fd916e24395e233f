//! The report on a sheet: from its bytes to the whole text that is printed for them.
//! `text` is a text that grows, `pieces` has its lines. Rests on `sheet`, `dtree` and the definitions of `rules`, Text.
#![tactic(auto)]

mod pieces;
pub mod text;

ghost use Rattle.std.specs.Prelude.{◌≡◌};
ghost use Rattle.rules.specs.Sheet.{limits_in};
ghost use Rattle.sheet.specs.Reading.{entries_in};
ghost use Rattle.report.specs.Appended.{appended};
ghost use Rattle.report.specs.Lines.{entries_text};
ghost use Rattle.report.specs.Reported.{Reported};

use dtree::afresh::run_afresh;
use sheet::accepted::Sheet;
use sheet::table::TableArrays;
use text::Report;

// Each table is judged again, by `run_afresh`: a call for tables known to be accepted would be a second one in `dtree`, for this loop alone, no plainer.
/// The lines of an accepted sheet, one for each cue: its number, and what one run on its table answers. The weights are read once for all.
#[tactic(auto, using(crate::proofs::Appending::line_by_line), unfolding(sheet::specs::Handed::table_at, crate::specs::Lines::entries_text))]
fn append_lines(text: &mut Report, sheet: Sheet<'_>)
    ensures { text.new ≡ appended text.old
        (entries_text (limits_in sheet.entry.bytes.now) sheet.entry.bytes.now (entries_in sheet.entry.bytes.now)) }
{
    let raw = sheet.raw();
    let limits = raw.limits();
    let mut table = TableArrays::default();
    table.set_weights(raw.weights());
    for entry in sheet.entries() {
        table.set_ways(raw.ways(entry));
        let answer = run_afresh(table.weights(), table.present(), table.absent(), limits);
        text.append_line(entry.cue, answer);
    }
}

/// The text that is printed for any bytes, read as a sheet.
pub fn report(bytes: &[u8]) -> Report
    ensures promise { Reported bytes.now result }
{
    let mut text = Report::new();
    match Sheet::read(bytes) {
        Ok(sheet) => {
            text.append_heading();
            append_lines(&mut text, sheet);
        }
        Err(refusal) => text.append_refused(refusal),
    }
    text
}
