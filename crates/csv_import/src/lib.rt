//! The import: a text read in one pass into the lists of the sheet that it says, then the writer's call on those lists.
//! Rests on the records of `csv_rows` and on `writer`. What a call promises stands in `csv_text`, Promises.
#![tactic(auto)]

ghost use Rattle.csv_text.specs.Promises.{Importing};

use csv_text::ImportError;
use read::Gathered;
use rules::Refusal;
use writer::refusals::check_front;
use writer::write;

mod cues;
mod read;
mod rows;
mod ways;

/// Reads the text and writes the sheet that it says to the front of the space (RULES 13.11, 13.12). A refused call writes nothing.
/// What the lists leave out or cut is refused before it is used: more cues, counts or weights than a sheet may have by the writer's first tests,
/// which see one more than the limit, and a fault that no word has by 12, which comes behind them.
pub fn import(text: &[u8], space: &mut [u8]) -> Result<u64, ImportError>
    ensures promise { Importing text.now space.old space.new result }
{
    let mut gathered = Gathered::new();
    gathered.read(text)?;
    let Some(lists) = gathered.lists() else {
        let cues = &gathered.rows.cues;
        check_front(
            gathered.limits,
            gathered.weights.as_slice(),
            cues.numbers.as_slice(),
            cues.counts.as_slice(),
        )?;
        return Err(Refusal::NamesBeyond.into());
    };
    Ok(write(lists, space)?)
}
