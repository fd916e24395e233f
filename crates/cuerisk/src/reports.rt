//! The report on a sheet into a lent space. Rests on `report`, whose text comes by value, and on the definitions of specs/Into.antt.
//! A space that is too short is left as it was.
#![tactic(auto, using(std::proofs::lemmas::Grind::common_steps), unfolding(rules::specs::Refusals::answered, rules::specs::Refusals::first, rules::specs::Sheet::written_by, crate::specs::Into::report_refusals, crate::specs::Into::report_number, crate::specs::Into::report_answer, crate::specs::Into::reported))]

ghost use Rattle.std.specs.Prelude.{◌≡◌, length};
ghost use Rattle.cuerisk.specs.Into.{report_answer, reported};

use report::report;
use rules::Refusal;

/// Puts the printed text to the front of the space.
pub fn put_text(sheet: &[u8], space: &mut [u8]) -> Result<u64, Refusal>
    ensures value { result ≡ report_answer sheet.now (length space.old) }
    ensures space_after { space.new ≡ reported sheet.now space.old }
{
    let report = report(sheet);
    let text = report.as_slice();
    Refusal::NoRoom.test(space.len() < text.len())?;
    space[..text.len()].copy_from_slice(text);
    // A word, as the answers in C have it.
    Ok(text.len() as u64)
}
