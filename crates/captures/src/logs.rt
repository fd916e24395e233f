//! Logs: the packets that a node heard, judged one by one, in one piece or in several, of one log or of many.
//! Rests on the definitions of specs/Logs.antt and the promises of specs/Promises.antt.
ghost use Rattle.std.specs.Prelude.{◌≡◌, false};
ghost use Rattle.captures.specs.Logs.{discards, hear, heard_all, counted, is_full, capped, logs_in};
ghost use Rattle.captures.specs.Promises.{LogCounted, LogsCounted};

use super::{Fraction, LIMIT, Log};
use rules::Refusal;

/// The packet is discarded.
#[tactic(auto, using(crate::proofs::Bits8::discards_bits))]
fn is_discarded(last: u8, new: u8) -> bool
    ensures { result ≡ discards last new }
{
    let ahead = new.wrapping_sub(last).cast_signed();
    ahead <= 0 && -20 < ahead
}

impl Log {
    /// Before the first packet of a log.
    pub const SILENT: Log = Log {
        last: None,
        discarded: 0,
        judged: 0,
    };

    /// A log that is too long, however it goes on. A count above the limit says so: the definitions cap a log so, and a state of its own
    /// would be matched in each call to the same.
    pub const FULL: Log = Log {
        last: Some(0),
        discarded: 0,
        judged: LIMIT + 1,
    };

    /// A count is above the limit.
    #[tactic(auto, unfolding(crate::specs::Logs::is_full))]
    pub fn is_full(self) -> bool
        ensures { result ≡ is_full self }
    {
        LIMIT < self.judged || LIMIT < self.discarded
    }

    /// The log after one more packet.
    #[tactic(auto, using(crate::proofs::Counting::not_full), unfolding(crate::specs::Logs::hear))]
    fn hear(self, new: u8) -> Log
        requires { is_full self ≡ false }
        ensures { result ≡ hear self new }
    {
        match self.last {
            None => Log {
                last: Some(new),
                ..self
            },
            Some(last) if is_discarded(last, new) => Log {
                discarded: self.discarded + 1,
                judged: self.judged + 1,
                ..self
            },
            Some(_) => Log {
                last: Some(new),
                judged: self.judged + 1,
                ..self
            },
        }
    }

    /// The log as it is handed on from piece to piece: `FULL` if it is too long.
    #[tactic(auto, unfolding(crate::specs::Logs::capped))]
    fn capped(self) -> Log
        ensures { result ≡ capped self }
    {
        if self.is_full() { Log::FULL } else { self }
    }

    /// The log after one more piece of it, and `FULL` as soon as a count is above the limit.
    #[tactic(auto, using(crate::proofs::Counting::hearing))]
    pub fn hear_all(self, piece: &[u8]) -> Log
        ensures { result ≡ capped (heard_all self piece.now) }
    {
        let mut so_far = self;
        for &new in piece {
            if so_far.is_full() {
                return Log::FULL;
            }
            so_far = so_far.hear(new);
        }
        so_far.capped()
    }

    /// The fraction counted so far. A method and no `From`: the counts of a log that goes on are a fraction only where they are asked for.
    pub fn counted(self) -> Fraction
        ensures { result ≡ counted self }
    {
        Fraction {
            discarded: self.discarded,
            judged: self.judged,
        }
    }
}

/// The fraction of one log.
pub fn log(bytes: &[u8]) -> Result<Fraction, Refusal>
    ensures promise { LogCounted bytes.now result }
{
    Log::SILENT.hear_all(bytes).counted().accept()
}

// Summed as in `total`: one sum over any iterator would need an iterator of logs for this one call. In `cue_weight` a file may fail between two logs.
/// The fraction of several logs, up to the first that is refused or makes the sum so.
pub fn logs(bytes: &[u8], lengths: &[u64]) -> Result<Fraction, Refusal>
    ensures promise { LogsCounted (logs_in lengths.now bytes.now) result }
{
    let mut sum = Fraction::default();
    let mut rest = bytes;
    for &length in lengths {
        let (front, behind) = rest.split_at(rest.len().min(length as usize));
        sum = sum.add(Log::SILENT.hear_all(front).counted())?;
        rest = behind;
    }
    Ok(sum)
}
