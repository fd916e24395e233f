//! The head of a sheet's bytes, and where its parts start. Rests on the definitions of `rules`, Sheet.
//! The sizes are written as numbers, as the definitions have them: a head of 12 bytes, entries of 8, weights of 4, ways of 16.
//! With the bounds no position that is counted on from here can wrap.
ghost use Rattle.std.specs.Prelude.{◌≡◌, ◌≤◌};
ghost use Rattle.rules.specs.Sheet.{faults_in, cues_in, limits_in, bodies_in, weights_start, head_in};

use super::fields::Raw;
use rules::{Head, Limits};

impl Raw<'_> {
    /// How many faults the sheet has.
    pub fn faults(self) -> u16
        ensures { result ≡ faults_in self.entry.bytes.now }
    {
        self.u16_at(0)
    }

    /// How many cues it has.
    pub fn cues(self) -> u16
        ensures { result ≡ cues_in self.entry.bytes.now }
    {
        self.u16_at(2)
    }

    /// The limits of its runs.
    pub fn limits(self) -> Limits
        ensures { result ≡ limits_in self.entry.bytes.now }
    {
        Limits {
            allowance: u64::from(self.u32_at(4)),
            budget: u64::from(self.u16_at(8)),
            mode: u64::from(self.u16_at(10)),
        }
    }

    /// The head.
    #[tactic(auto, unfolding(rules::specs::Sheet::head_in))]
    pub fn head(self) -> Head
        ensures { result ≡ head_in self.entry.bytes.now }
    {
        Head {
            faults: self.faults(),
            cues: self.cues(),
            limits: self.limits(),
        }
    }

    /// Where the weights start.
    #[tactic(auto, unfolding(rules::specs::Sheet::weights_start))]
    pub fn weights_start(self) -> usize
        ensures place { result ≡ weights_start (cues_in self.entry.bytes.now) }
        ensures most { result ≤ 524292 }
    {
        12 + 8 * usize::from(self.cues())
    }

    /// Where the bodies start.
    #[tactic(auto, unfolding(rules::specs::Sheet::bodies_start))]
    pub fn bodies_start(self) -> usize
        ensures place { result ≡ bodies_in self.entry.bytes.now }
        ensures most { result ≤ 786432 }
    {
        self.weights_start() + 4 * usize::from(self.faults())
    }
}
