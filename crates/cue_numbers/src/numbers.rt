//! The numbers of each answer, and the refinement that numbers ask for.
//! Rests on the definitions of specs/Numbers.antt, most of which go through `rules`, Answers.
ghost use Rattle.std.specs.Prelude.{◌≡◌};
ghost use Rattle.rules.specs.Rounding.{S};
ghost use Rattle.rules.specs.Refusals.{number};
ghost use Rattle.rules.specs.Answers.{refused};
ghost use Rattle.sheet.specs.Handed.{as_table};
ghost use Rattle.cue_numbers.specs.Numbers.{kind_asked, flat, flat_answer, flat_run, flat_spot};
ghost use Rattle.cue_numbers.specs.Numbers.{flat_sheet, flat_entry, no_table, flat_table, flat_write, flat_import};
ghost use Rattle.cue_numbers.specs.Numbers.{flat_fraction, flat_weight, flat_order};

use super::{CueAnswer, CueEntry, CueFraction, CueOrder, CueSheet, CueSpot, CueTable, CueWeight};
use captures::Fraction;
use csv_text::ImportError;
use rules::{Ended, Entry, Figures, Head, Kind, MOST_FAULTS, MOST_WAYS, Refusal, S};
use sheet::table::TableArrays;
use std::cmp::Ordering;

/// The refinement asked for: 0 is independence, 1 the fault, 2 the common part. Any other number asks for fault 64, which no table has: 20.
/// No `TryFrom`: a number that stands for nothing is refused by 20, behind 9 to 19, so it has to be handed on as a kind.
#[tactic(auto, unfolding(crate::specs::Numbers::kind_asked))]
pub fn kind_asked(what: u64, fault: u64) -> Kind
    ensures { result ≡ kind_asked what fault }
{
    match what {
        0 => Kind::IndependentOr,
        1 => Kind::Shannon(fault),
        2 => Kind::IndependentAnd,
        _ => Kind::Shannon(MOST_FAULTS as u64),
    }
}

impl CueAnswer {
    /// An answer without an interval: nought to the full billion, neither verdict nor figure.
    fn bare(number: u64, count: u64) -> CueAnswer
        ensures { result ≡ record { number = number; low = 0; high = S; count = count; verdict = 0; figure = 0 } }
    {
        CueAnswer {
            number,
            low: 0,
            high: S,
            count,
            verdict: 0,
            figure: 0,
        }
    }

    /// An accepted call on a tree, with its verdict's code and its figure.
    fn accepted(figures: Figures, verdict: u64, figure: u64) -> CueAnswer
        ensures { result ≡ record { number = 0; low = figures.low; high = figures.high; count = figures.count; verdict = verdict; figure = figure } }
    {
        CueAnswer {
            number: 0,
            low: figures.low,
            high: figures.high,
            count: figures.count,
            verdict,
            figure,
        }
    }
}

/// A refused call.
impl From<Refusal> for CueAnswer {
    ghost from_gives = { λ r a. a ≡ flat (refused (number r)) };

    fn from(refusal: Refusal) -> CueAnswer {
        CueAnswer::bare(u64::from(refusal), 0)
    }
}

// Each conversion below has its `match`: what is told of a refusal is one more conversion, or zeros, and `map_or_else` would name the two as functions.
/// An opening or a hand refinement.
impl From<Result<Figures, Refusal>> for CueAnswer {
    ghost from_gives = { λ r a. a ≡ flat_answer r };

    fn from(answer: Result<Figures, Refusal>) -> CueAnswer {
        match answer {
            Ok(figures) => CueAnswer::accepted(figures, 0, 0),
            Err(refusal) => CueAnswer::from(refusal),
        }
    }
}

/// A run.
impl From<Result<Ended, Refusal>> for CueAnswer {
    ghost from_gives = { λ r a. a ≡ flat_run r };

    fn from(answer: Result<Ended, Refusal>) -> CueAnswer {
        match answer {
            Ok(ended) => {
                CueAnswer::accepted(ended.figures, u64::from(ended.verdict), ended.figure)
            }
            Err(refusal) => CueAnswer::from(refusal),
        }
    }
}

/// The writer, the report or an export: the bytes written.
impl From<Result<u64, Refusal>> for CueAnswer {
    ghost from_gives = { λ r a. a ≡ flat_write r };

    fn from(answer: Result<u64, Refusal>) -> CueAnswer {
        match answer {
            Ok(written) => CueAnswer::bare(0, written),
            Err(refusal) => CueAnswer::from(refusal),
        }
    }
}

/// An import: the bytes written, or the record that is misread.
impl From<Result<u64, ImportError>> for CueAnswer {
    ghost from_gives = { λ r a. a ≡ flat_import r };

    fn from(answer: Result<u64, ImportError>) -> CueAnswer {
        match answer {
            Ok(bytes) => CueAnswer::bare(0, bytes),
            Err(ImportError::Misread(record)) => CueAnswer::bare(
                u64::from(Refusal::Misread),
                record,
            ),
            Err(ImportError::Refused(refusal)) => CueAnswer::from(refusal),
        }
    }
}

/// What the search of lent records finds.
impl From<Option<usize>> for CueSpot {
    ghost from_gives = { λ o s. s ≡ flat_spot o };

    fn from(found: Option<usize>) -> CueSpot {
        match found {
            Some(at) => CueSpot { found: 1, at },
            None => CueSpot::default(),
        }
    }
}

/// Reading a whole sheet.
impl From<Result<Head, Refusal>> for CueSheet {
    ghost from_gives = { λ r s. s ≡ flat_sheet r };

    fn from(answer: Result<Head, Refusal>) -> CueSheet {
        match answer {
            Ok(head) => CueSheet {
                number: 0,
                faults: u64::from(head.faults),
                cues: u64::from(head.cues),
                allowance: head.limits.allowance,
                budget: head.limits.budget,
                mode: head.limits.mode,
            },
            Err(refusal) => CueSheet {
                number: u64::from(refusal),
                ..CueSheet::default()
            },
        }
    }
}

/// A reader's call.
impl From<Result<Option<Entry>, Refusal>> for CueEntry {
    ghost from_gives = { λ r e. e ≡ flat_entry r };

    fn from(answer: Result<Option<Entry>, Refusal>) -> CueEntry {
        match answer {
            Ok(Some(entry)) => CueEntry {
                number: 0,
                past: 0,
                cue: u64::from(entry.cue),
                ways: u64::from(entry.ways),
                start: u64::from(entry.start),
            },
            Ok(None) => CueEntry {
                past: 1,
                ..CueEntry::default()
            },
            Err(refusal) => CueEntry {
                number: u64::from(refusal),
                ..CueEntry::default()
            },
        }
    }
}

impl CueTable {
    /// Where there is no table to hand over: refused by a number, or past the last cue. Both are numbers already, as C gets them.
    #[tactic(auto, using(sheet::proofs::Sized::sizing))]
    pub fn none(number: u64, past: u64) -> CueTable
        ensures { result ≡ flat_table number past no_table }
    {
        CueTable {
            number,
            past,
            faults: 0,
            ways: 0,
            weights: [0; MOST_FAULTS],
            present: [0; MOST_WAYS],
            absent: [0; MOST_WAYS],
        }
    }
}

/// A table that a sheet's reader hands over.
impl From<TableArrays> for CueTable {
    ghost from_gives = { λ t c. c ≡ flat_table 0 0 (as_table t) };

    fn from(table: TableArrays) -> CueTable {
        let weights = table.weights;
        let present = table.present;
        let absent = table.absent;
        CueTable {
            number: 0,
            past: 0,
            faults: table.faults as u64,
            ways: table.ways as u64,
            weights,
            present,
            absent,
        }
    }
}

/// The answer of counting one log or several, and of adding fractions.
impl From<Result<Fraction, Refusal>> for CueFraction {
    ghost from_gives = { λ r f. f ≡ flat_fraction r };

    fn from(answer: Result<Fraction, Refusal>) -> CueFraction {
        match answer {
            Ok(fraction) => CueFraction {
                number: 0,
                discarded: fraction.discarded,
                judged: fraction.judged,
            },
            Err(refusal) => CueFraction {
                number: u64::from(refusal),
                ..CueFraction::default()
            },
        }
    }
}

/// The answer of making a weight.
impl From<Result<u32, Refusal>> for CueWeight {
    ghost from_gives = { λ r w. w ≡ flat_weight r };

    fn from(answer: Result<u32, Refusal>) -> CueWeight {
        match answer {
            Ok(weight) => CueWeight {
                number: 0,
                weight: u64::from(weight),
            },
            Err(refusal) => CueWeight {
                number: u64::from(refusal),
                ..CueWeight::default()
            },
        }
    }
}

impl CueOrder {
    /// An order by its code.
    fn told(order: u64) -> CueOrder
        ensures { result ≡ record { number = 0; order = order } }
    {
        CueOrder { number: 0, order }
    }
}

/// The answer of a comparison, whose codes are those of the header.
impl From<Result<Ordering, Refusal>> for CueOrder {
    ghost from_gives = { λ r o. o ≡ flat_order r };

    fn from(answer: Result<Ordering, Refusal>) -> CueOrder {
        match answer {
            Ok(Ordering::Less) => CueOrder::told(1),
            Ok(Ordering::Equal) => CueOrder::told(2),
            Ok(Ordering::Greater) => CueOrder::told(3),
            Err(refusal) => CueOrder {
                number: u64::from(refusal),
                ..CueOrder::default()
            },
        }
    }
}
