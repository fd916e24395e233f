//! The types that the rules speak of, and mostly the code too: what a refinement does, a run's limits and verdict, what each call answers, why one is refused.
//! specs/ has the rules (docs/RULES.md) as definitions over these types, proofs/ the theorems about them. Of code only a refusal's test stands here,
//! the numbers of refusals and verdicts, and the other direction of rounding, and how a refusal prints.
#![tactic(auto)]

ghost use Rattle.std.specs.Prelude.{◌≡◌, [], ◌∷◌};
ghost use Rattle.rules.specs.Answers.{verdict_number};
ghost use Rattle.rules.specs.Refusals.{number, test, answered};
ghost use Rattle.rules.specs.Rounding.{flip};

use std::fmt;

/// One billion: weights, chances and the allowance are in billionths.
pub const S: u64 = 1000000000;

// The limits, for the code. The definitions state them in figures, as the rules do, and clauses follow the definitions.
/// The most faults of a table.
pub const MOST_FAULTS: usize = 64;

/// The most cues of a sheet.
pub const MOST_CUES: usize = 24;

/// The most ways of a cue.
pub const MOST_WAYS: usize = 128;

/// The most refinements of a tree, and so the largest budget.
pub const MOST_REFINEMENTS: u64 = 255;

/// The most steps of a place: a leaf that can be refined lies above that level.
pub const MOST_STEPS: usize = 64;

/// Which way a number is rounded: down for a low end, up for a high end.
#[derive(Clone, Copy, PartialEq, Eq, Debug)]
pub enum Direction {
    Down,
    Up,
}

// The words stand here side by side, not as `Words`: every rule and every clause speaks of them, and each would name a field more.
/// A way, the standard term is clause: its number, the word of the faults that it names present and that of those it names absent.
#[derive(Clone, Copy)]
pub struct Way {
    pub number: usize,
    pub present: u64,
    pub absent: u64,
}

/// What a refinement does at a leaf, and so the kind of the inner node that it makes (RULES 4.1).
/// `IndependentOr` is by independence (RULES 4.3); `IndependentAnd` takes the common part out (RULES 4.16); `Shannon` is by a fault (RULES 4.4):
/// the Shannon expansion on that fault.
#[derive(Clone, Copy)]
pub enum Kind {
    IndependentOr,
    IndependentAnd,
    Shannon(u64),
}

/// The words of a way that has no number yet, as a sheet or a text gives them: the faults that it names present, and those that it names absent.
#[derive(Clone, Copy, PartialEq, Eq, Debug)]
pub struct Words {
    pub present: u64,
    pub absent: u64,
}

/// Why a run stopped, in the order in which the reasons are tried.
#[derive(Clone, Copy, PartialEq, Eq, Debug)]
pub enum Verdict {
    Met = 1,
    Done = 2,
    Full = 3,
    Spent = 4,
}

/// What a run is asked for: the allowance in billionths, the most refinements it may make, and the mode, which says what the allowance is (RULES 5.6):
/// 0 a distance, 1 a share of the chance. All are words: a number that 3, 14 or 15 judges is never cut before.
#[derive(Clone, Copy)]
pub struct Limits {
    pub allowance: u64,
    pub budget: u64,
    pub mode: u64,
}

/// What a run aims at: a figure from which the exact chance is no further away than a distance, or numbers that are within a share of the exact chance.
/// The budget is no part of it.
#[derive(Clone, Copy)]
pub enum Aim {
    Distance(u64),
    Share(u64),
}

/// What an accepted call on a tree hands back: the interval at the root and the refinements made.
#[derive(Clone, Copy)]
pub struct Figures {
    pub low: u64,
    pub high: u64,
    pub count: u64,
}

/// What an accepted run hands back: why it stopped, the interval and the refinements, and the one figure that the page shows, 0 by share.
#[derive(Clone, Copy)]
pub struct Ended {
    pub verdict: Verdict,
    pub figures: Figures,
    pub figure: u64,
}

/// The head of a sheet: how many faults and cues it has, and the limits of its runs.
#[derive(Clone, Copy)]
pub struct Head {
    pub faults: u16,
    pub cues: u16,
    pub limits: Limits,
}

/// One cue as the contents list it: its number, its ways, and where its body starts.
#[derive(Clone, Copy)]
pub struct Entry {
    pub cue: u16,
    pub ways: u16,
    pub start: u32,
}

/// Why a call is refused, by the numbers of RULES 8.2. A call answers with the first that applies to it.
#[derive(Clone, Copy, PartialEq, Eq, Debug)]
pub enum Refusal {
    /// There are fewer than 12 bytes.
    NoHead = 1,
    /// The number of faults or of cues is 0 or too large.
    CountsOutside = 2,
    /// The mode is above 1.
    ModeAbove = 3,
    /// The bytes end before the bodies start.
    TooShort = 4,
    /// A cue number is not above the one before it.
    NotRising = 5,
    /// A way count is above 128.
    Crowded = 6,
    /// A stated place is not where the body starts.
    Misplaced = 7,
    /// The bytes do not end where the last body ends.
    WrongLength = 8,
    /// The table has no weights, or more than 64.
    FaultsOutside = 9,
    /// A weight is above S.
    Overweight = 10,
    /// The table has more than 128 present words, or not as many absent words.
    WordsAmiss = 11,
    /// A way names a fault that there is not.
    NamesBeyond = 12,
    /// A way names a fault in both senses.
    NamesBoth = 13,
    /// The allowance is above S.
    AllowanceAbove = 14,
    /// The budget is above 255.
    BudgetAbove = 15,
    /// The tree is not good for the table.
    NotGood = 16,
    /// The tree has no leaf at the place.
    NoLeaf = 17,
    /// The leaf is closed.
    Closed = 18,
    /// The tree is full.
    Full = 19,
    /// What is asked for is not possible at the leaf.
    Impossible = 20,
    /// The lists do not agree with each other or with the counts.
    Disagree = 21,
    /// The space is too short.
    NoRoom = 22,
    /// A record of a text is misread.
    Misread = 23,
    /// No packet is judged.
    Unjudged = 24,
    /// Too many packets are judged, or more discarded than judged.
    Beyond = 25,
}

impl Direction {
    /// The other direction.
    pub fn opposite(self) -> Direction
        ensures { result ≡ flip self }
    {
        match self {
            Direction::Down => Direction::Up,
            Direction::Up => Direction::Down,
        }
    }
}

impl Refusal {
    /// Refuses if its test applies.
    #[tactic(auto, unfolding(crate::specs::Refusals::answered))]
    pub fn test(self, applies: bool) -> Result<(), Refusal>
        ensures { result ≡ answered (test self applies ∷ []) tt }
    {
        if applies { Err(self) } else { Ok(()) }
    }
}

impl From<Verdict> for u64 {
    ghost from_gives = { λ v n. n ≡ verdict_number v };

    fn from(v: Verdict) -> u64 {
        v as u64
    }
}

// In two widths: 8 bits, which hold every number and are promised to callers, and 64, as C has them.
impl From<Refusal> for u8 {
    ghost from_gives = { λ r n. n ≡ number r };

    fn from(r: Refusal) -> u8 {
        r as u8
    }
}

impl From<Refusal> for u64 {
    ghost from_gives = { λ r n. n ≡ number r };

    fn from(r: Refusal) -> u64 {
        r as u64
    }
}

impl fmt::Display for Refusal {
    fn fmt<W: fmt::Write>(&self, f: &mut fmt::Formatter<W>) -> fmt::Result {
        write!(f, "refused {}", u8::from(*self))
    }
}
