//! A run on the records of a tree: refinements, one after the other, until there is a reason to stop.
//! `turn` says whether there is one and makes one refinement otherwise, `run` repeats that. Rests on `rules`, Run, and `records`.
#![tactic(auto)]

pub mod run;
pub mod turn;

ghost use Rattle.std.specs.Prelude.{◌≡◌, ◌≤◌};
ghost use Rattle.rules.specs.Rounding.{S};
ghost use Rattle.rules.specs.Run.{aim_of};

use checks::limits::check_limits;
use rules::{Aim, Limits, Refusal, Verdict};

/// What a run is to do: limits whose allowance is at most S, so that its double fits a word and it can be taken from S.
#[derive(Clone, Copy)]
pub struct Task {
    pub limits: Limits,
    ghost allowance_bound: { limits.allowance ≤ S },
}

impl Task {
    ghost use Rattle.running.specs.Tasks.{Accepting, allowance_of};

    // Tables, lists and fractions are accepted under this name: a `TryFrom` would say the same and not name it.
    /// The task that the limits set, or why they are refused.
    pub fn accept(limits: Limits) -> Result<Task, Refusal>
        ensures { Accepting limits result }
    {
        check_limits(limits)?;
        Ok(Task { limits })
    }

    /// What the run aims at.
    #[tactic(auto, unfolding(rules::specs::Run::aim_of))]
    pub fn aim(self) -> Aim
        ensures aim { result ≡ aim_of self.limits }
        ensures most { allowance_of result ≤ S }
    {
        if self.limits.mode == 1 {
            Aim::Share(self.limits.allowance)
        } else {
            Aim::Distance(self.limits.allowance)
        }
    }
}

/// Why a run stopped, and how many refinements it made.
#[derive(Clone, Copy)]
pub struct Stopped {
    pub verdict: Verdict,
    pub made: u64,
}
