//! A reader of a sheet: it holds a sheet and a position in its contents (RULES 7.12).
//! Each call is one of `sheet`, at the position that the calls before it left.
#![tactic(auto)]

ghost use Rattle.std.specs.Prelude.{◌≡◌};
ghost use Rattle.cue_reader.specs.Driven.{call_answer};
ghost use Rattle.cue_reader.specs.Promises.{ReaderCalled};

use rules::{Entry, Refusal};
use sheet::reader::cue_at;

/// The sheet, and the position in its contents of the cue that the next call hands over.
/// The bytes and not a sheet that is judged: by RULES 7.12 a reader holds these two, and each call answers for its bytes.
#[derive(Clone, Copy)]
pub struct Reader<'a> {
    pub sheet: &'a [u8],
    pub at: usize,
}

impl<'a> Reader<'a> {
    /// Opens a reader: its place is the first cue.
    pub fn open(sheet: &'a [u8]) -> Reader<'a>
        ensures bytes { result.sheet ≡ sheet.entry }
        ensures place { result.at ≡ 0 }
    {
        Reader { sheet, at: 0 }
    }

    /// The next cue. Past the last there is none, and a refused sheet is refused at each call; both keep the place. So a reader is no iterator.
    pub fn next(&mut self) -> Result<Option<Entry>, Refusal>
        ensures promise { ReaderCalled self.old result self.new }
    {
        let answer = cue_at(self.sheet, self.at);
        if let Ok(Some(_)) = answer {
            self.at += 1;
        }
        answer
    }
}

/// The answer of the call that follows so many calls of a reader opened on the sheet.
pub fn call_after(sheet: &[u8], calls: usize) -> Result<Option<Entry>, Refusal>
    ensures answer { result ≡ call_answer sheet.now calls }
{
    let mut reader = Reader::open(sheet);
    for _ in 0..calls {
        let _ = reader.next();
    }
    reader.next()
}
