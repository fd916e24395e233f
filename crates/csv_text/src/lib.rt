//! Sheets as comma separated text: the types that its definitions and the code of the two calls share.
//! specs/ has the definitions, proofs/ the theorems about them. Of code only how an error converts and prints stands here.
#![tactic(auto)]

ghost use Rattle.std.specs.Prelude.{◌≡◌};
ghost use Rattle.csv_text.specs.declared.ImportError.{ImportError};

use rules::Refusal;
use std::error::Error;
use std::fmt;

// A flag: the definitions of specs/ ask only whether a fault is absent, so an enum of two senses would be matched to this answer at each place.
/// A fault as a way names it: its place, counted from 0, and whether it is named absent.
#[derive(Clone, Copy, PartialEq, Eq, Debug)]
pub struct Fault {
    pub place: u64,
    pub absent: bool,
}

/// Why an import is refused: a record is misread, and then the number of the first such; or another refusal.
#[derive(Clone, Copy, PartialEq, Eq, Debug)]
pub enum ImportError {
    Misread(u64),
    Refused(Refusal),
}

// By hand: `thiserror` would write the three, but tells of no `From` what it makes.
impl From<Refusal> for ImportError {
    ghost from_gives = { λ r e. e ≡ ImportError.Refused r };

    fn from(refusal: Refusal) -> ImportError {
        ImportError::Refused(refusal)
    }
}

impl fmt::Display for ImportError {
    fn fmt<W: fmt::Write>(&self, f: &mut fmt::Formatter<W>) -> fmt::Result {
        match self {
            ImportError::Misread(record) => write!(f, "{} at record {record}", Refusal::Misread),
            ImportError::Refused(why) => write!(f, "{why}"),
        }
    }
}

impl Error for ImportError {}
