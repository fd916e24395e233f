//! The export of a sheet: its bytes in, the text that they say out into a lent space, or a refusal that leaves the space as it was.
//! `lengths` measures the text before anything is written, `pieces` and `whole` write it.
//! What a call promises: `csv_text`, Promises.
#![tactic(auto)]

mod lengths;
mod pieces;
mod whole;

ghost use Rattle.csv_text.specs.Promises.{Exporting};

use lengths::text_length;
use rules::Refusal;
use sheet::accepted::Sheet;
use whole::put_text;
use writer::output::Out;

/// Writes the text of the sheet to the front of the space, and counts its bytes. A refused call writes nothing.
pub fn export(bytes: &[u8], space: &mut [u8]) -> Result<u64, Refusal>
    ensures promise { Exporting bytes.now space.old space.new result }
{
    let sheet = Sheet::read(bytes)?;
    Refusal::NoRoom.test(space.len() < text_length(sheet))?;
    let mut out = Out::new(space);
    put_text(&mut out, sheet);
    // A word, as the answers in C have it.
    Ok(out.len() as u64)
}
