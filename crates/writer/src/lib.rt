//! The writer of sheets: lists in, the bytes of the sheet that they give out into a lent space, or a refusal that leaves the space as it was.
//! `refusals` has the tests of a call, `pieces` writes the bytes. What a call promises stands in specs/Promises.antt.
#![tactic(auto)]

ghost use Rattle.writer.specs.Given.{given};
ghost use Rattle.writer.specs.Promises.{Writing};

use lists::Lists;
use output::Out;
use rules::Refusal;

pub mod lists;
pub mod output;
mod pieces;
pub mod refusals;

/// Writes the sheet that the lists give to the front of the space, and counts its bytes, in a word as C is told them. A refused call writes nothing.
pub fn write(lists: Lists, space: &mut [u8]) -> Result<u64, Refusal>
    ensures promise { Writing (given lists.entry) space.old space.new result }
{
    let accepted = lists.accept(space.len())?;
    let mut out = Out::new(space);
    accepted.put_sheet(&mut out);
    Ok(out.len() as u64)
}
