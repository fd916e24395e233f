//! A lent space that is written from its front, each piece behind the one before it.
//! A clause sees it by `written` and `left`, and what a call adds by `Room` and `Wrote` (specs/Pieces.antt).
ghost use Rattle.std.specs.Prelude.{◌≡◌, ◌∷◌, ◌++◌, [], ◌≤◌, length};

/// A space that the caller lends, since the library has no heap, and how many bytes of it are written.
/// It has no `Model`, which would hide the loan: its owner would not learn what the space holds afterwards.
#[derive(Drop)]
pub struct Out<'a> {
    space: &'a mut [u8],
    at: usize,
    ghost within: { at ≤ length space.now },
}

impl<'a> Out<'a> {
    ghost use Rattle.rules.specs.Sheet.{little};
    ghost use Rattle.writer.specs.Pieces.{Room, Wrote, Opened, written, if_meant};

    /// Nothing is written yet.
    pub fn new(space: &'a mut [u8]) -> Out<'a>
        ensures { Opened space.entry result }
    {
        Out { space, at: 0 }
    }

    /// How many bytes are written.
    pub fn len(&self) -> usize
        ensures { result ≡ length (written self.now) }
    {
        self.at
    }

    /// One byte.
    pub fn push(&mut self, byte: u8)
        requires { Room self.old (byte ∷ []) }
        ensures { Wrote self.old (byte ∷ []) self.new }
    {
        self.space[self.at] = byte;
        self.at += 1;
    }

    /// A byte, another one if it is meant, and a last one. No branch: one that is not meant is written over by the last.
    pub fn push_around(&mut self, first: u8, middle: u8, meant: bool, last: u8)
        requires { Room self.old (first ∷ (if_meant meant middle ++ last ∷ [])) }
        ensures { Wrote self.old (first ∷ (if_meant meant middle ++ last ∷ [])) self.new }
    {
        let end = self.at + if meant { 2 } else { 1 };
        self.space[self.at] = first;
        self.space[self.at + 1] = middle;
        self.space[end] = last;
        self.at = end + 1;
    }

    /// Bytes as they are.
    pub fn extend_from_slice(&mut self, bytes: &[u8])
        requires { Room self.old bytes.now }
        ensures { Wrote self.old bytes.now self.new }
    {
        let end = self.at + bytes.len();
        self.space[self.at..end].copy_from_slice(bytes);
        self.at = end;
    }

    /// The lowest `N` bytes of a number, the lowest first. `to_le_bytes` of each number's own type would be no plainer: the head's numbers are cut from words.
    pub fn put_little<const N: usize>(&mut self, number: u64)
        requires width { N ≤ 8 }
        requires room { Room self.old (little N number) }
        ensures { Wrote self.old (little N number) self.new }
    {
        self.extend_from_slice(&number.to_le_bytes()[..N]);
    }
}
