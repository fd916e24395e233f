//! The records of a cue, piece by piece, each behind the one before it.
//! Rests on the definitions of Parts, and on `writer`, Pieces.
ghost use Rattle.std.specs.Prelude.{◌≡◌, ◌∷◌, ◌<◌};
ghost use Rattle.std.specs.List.{AllByRecursion};
ghost use Rattle.rules.specs.Text.{decimal};
ghost use Rattle.writer.specs.Pieces.{Room, Wrote};
ghost use Rattle.csv_text.specs.Texts.{fault_text};
ghost use Rattle.csv_export.specs.Parts.{Apart, faults_text, way_text, ways_of, entry_text};

use chances::bits::{Bits, has};
use csv_text::Fault;
use decimal::digits_of;
use rules::{Entry, Words};
use sheet::accepted::Sheet;
use writer::output::Out;

/// The end of a record.
pub const END: &[u8] = b"\r\n";

/// A comma and a fault: a minus if it is absent, and one digit or two. Each of its few bytes is one store, and the minus no branch: where senses alternate,
/// a branch takes half as long again.
#[tactic(auto, using(crate::proofs::Faults::fault_short, crate::proofs::Faults::fault_long))]
fn put_fault(out: &mut Out, fault: Fault)
    requires place { fault.place < 64 }
    requires room { Room out.old (44 ∷ fault_text fault) }
    ensures { Wrote out.old (44 ∷ fault_text fault) out.new }
{
    let number = fault.place as u8 + 1;
    if number < 10 {
        out.push_around(b',', b'-', fault.absent, b'0' + number);
    } else {
        out.push_around(b',', b'-', fault.absent, b'0' + number / 10);
        out.push(b'0' + number % 10);
    }
}

// `Apart` is a clause here and below: 13 is judged over all ways of a sheet, and a type of parted words would be made of each as it is read.
/// What stands behind the cue: the faults that a way names, rising, or `0` if it names none.
#[tactic(auto, using(crate::proofs::Naming::naming), unfolding(csv_text::specs::Texts::further_fields))]
fn put_faults(out: &mut Out, way: Words)
    requires apart { Apart way }
    requires room { Room out.old (faults_text way) }
    ensures { Wrote out.old (faults_text way) out.new }
{
    let named = way.present | way.absent;
    if named == 0 {
        out.extend_from_slice(b",0");
        return;
    }
    for place in Bits::of(named) {
        let fault = Fault {
            place: place as u64,
            absent: has(way.absent, place),
        };
        put_fault(out, fault);
    }
}

/// The record of a way behind the digits of its cue.
#[tactic(auto, unfolding(crate::specs::Parts::way_text))]
fn put_way(out: &mut Out, cue: &[u8], way: Words)
    requires apart { Apart way }
    requires room { Room out.old (way_text cue.now way) }
    ensures { Wrote out.old (way_text cue.now way) out.new }
{
    out.extend_from_slice(cue);
    put_faults(out, way);
    out.extend_from_slice(END);
}

/// The records of an entry; without ways, the cue's number alone.
#[tactic(auto, using(crate::proofs::Records::entry_ways))]
pub fn put_entry(out: &mut Out, sheet: Sheet<'_>, entry: Entry)
    requires apart { AllByRecursion Apart (ways_of sheet.bytes.now entry) }
    requires room { Room out.old (entry_text sheet.bytes.now entry) }
    ensures { Wrote out.old (entry_text sheet.entry.bytes.now entry) out.new }
{
    let digits = digits_of(u64::from(entry.cue));
    let cue = digits.as_slice();
    if entry.ways == 0 {
        out.extend_from_slice(cue);
        out.extend_from_slice(END);
        return;
    }
    for way in sheet.raw().ways(entry) {
        put_way(out, cue, way);
    }
}
