//! What a test program prints, or a sample: each piece is written as it comes, and one that cannot be written is passed over, so that the work goes on
//! with all its input. Rests on std alone.
#![tactic(auto)]

ghost use Rattle.std.specs.Prelude.{◌≡◌, List, ℕ};
ghost use Rattle.std.specs.Io.{StartsWith};
ghost use Rattle.std.specs.Io.KnownBytes.{Appends};

use std::fmt;
use std::fmt::Display;
use std::io::Write;

/// Where a program prints.
#[derive(Drop)]
pub struct Output<W>(pub W);

impl<W: Write> Output<W> {
    /// Writes the bytes from their front on, as far as they can be written, and nothing else.
    pub fn write_all(&mut self, bytes: &[u8])
        ensures { (written : List ℕ) × StartsWith bytes.now written × Appends (W.contents self.old.0) (W.contents self.new.0) written }
    {
        let mut rest = bytes;
        'bytes: while !rest.is_empty() {
            match self.0.write(rest) {
                Ok(taken) if taken > 0 => rest = &rest[taken..],
                _ => break,
            }
        }
    }

    /// Prints a format, piece by piece. By this name `write!` and `writeln!` find it, and give nothing to be looked at.
    pub fn write_fmt<D: Display + Drop>(&mut self, text: D) {
        let _ = fmt::Write::write(self, text);
    }
}

impl<W: Write> fmt::Write for Output<W> {
    ghost write_str_gives = { λ old bytes new. (written : List ℕ) × StartsWith bytes written × Appends (W.contents old.0) (W.contents new.0) written };

    fn write_str(&mut self, piece: &str) -> fmt::Result {
        self.write_all(piece.as_bytes());
        Ok(())
    }
}
