//! The pieces of the printed text: the heading, a refusal, and a cue's line with its fields. Rests on the module `text`.
//! Numbers are decimal, one blank stands between fields, a line feed after each line. They are put together by hand and not by `write!`, of
//! which only one to a `String` says what it writes, and the library has no heap.
#![tactic(auto, using(crate::proofs::Appending::appending))]

ghost use Rattle.std.specs.Prelude.{◌≡◌, ◌++◌};
ghost use Rattle.rules.specs.Refusals.{number};
ghost use Rattle.rules.specs.Text.{bytes, word};
ghost use Rattle.report.specs.Appended.{appended};
ghost use Rattle.report.specs.Lines.{refused_text, ended_text, answer_text};

use super::text::Report;
use rules::{Ended, Refusal, Verdict};

impl Report {
    /// The heading of an accepted sheet.
    #[tactic(auto, using(crate::proofs::Appending::appending), unfolding(rules::specs::Text::bytes))]
    pub(crate) fn append_heading(&mut self)
        ensures { self.new ≡ appended self.old (bytes "cue low high steps verdict\n") }
    {
        self.append(b"cue low high steps verdict\n");
    }

    /// The line of a refusal.
    #[tactic(auto, using(crate::proofs::Appending::appending), unfolding(rules::specs::Text::bytes, crate::specs::Lines::refused_text))]
    pub(crate) fn append_refused(&mut self, refusal: Refusal)
        ensures { self.new ≡ appended self.old (refused_text (number refusal)) }
    {
        self.append(b"refused ");
        self.append_decimal(u64::from(refusal), b'\n');
    }

    /// A verdict's word and the line feed.
    #[tactic(auto, using(crate::proofs::Appending::appending), unfolding(rules::specs::Text::bytes, rules::specs::Text::word))]
    fn append_word(&mut self, verdict: Verdict)
        ensures { self.new ≡ appended self.old (word verdict ++ bytes "\n") }
    {
        match verdict {
            Verdict::Met => self.append(b"met\n"),
            Verdict::Done => self.append(b"done\n"),
            Verdict::Full => self.append(b"full\n"),
            Verdict::Spent => self.append(b"spent\n"),
        }
    }

    /// A cue's number, the figures of its run and the verdict.
    #[tactic(auto, using(crate::proofs::Appending::appending), unfolding(rules::specs::Text::bytes, crate::specs::Lines::ended_text))]
    fn append_ended(&mut self, cue: u16, ended: Ended)
        ensures { self.new ≡ appended self.old (ended_text cue ended.verdict ended.figures) }
    {
        self.append_decimal(u64::from(cue), b' ');
        self.append_decimal(ended.figures.low, b' ');
        self.append_decimal(ended.figures.high, b' ');
        self.append_decimal(ended.figures.count, b' ');
        self.append_word(ended.verdict);
    }

    /// A cue's line, which has no figure. On a cue of an accepted sheet no run is refused.
    #[tactic(auto, using(crate::proofs::Appending::appending), unfolding(crate::specs::Lines::answer_text))]
    pub(crate) fn append_line(&mut self, cue: u16, answer: Result<Ended, Refusal>)
        ensures { self.new ≡ appended self.old (answer_text cue answer) }
    {
        match answer {
            Ok(ended) => self.append_ended(cue, ended),
            Err(refusal) => self.append_refused(refusal),
        }
    }
}
