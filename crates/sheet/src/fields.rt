//! Bytes that are read as a sheet, and the numbers in them, the lowest byte first. Rests on the definitions of `rules`, Sheet, and of Handed.
//! Every position can be asked for: a byte beyond the end counts as 0.
#![tactic(auto, using(crate::proofs::Sized::sizing))]

ghost use Rattle.std.specs.Prelude.{◌≡◌, ◌<◌, drop, length};
ghost use Rattle.rules.specs.Sheet.{field};
ghost use Rattle.sheet.specs.Handed.{sized};

/// Bytes that are read as a sheet, whatever they hold.
#[derive(Clone, Copy)]
pub struct Raw<'a> {
    pub bytes: &'a [u8],
}

impl<'a> Raw<'a> {
    /// The bytes from i on.
    pub(crate) fn rest(self, i: usize) -> Raw<'a>
        ensures { result.bytes.now ≡ drop i self.entry.bytes.now }
    {
        Raw {
            bytes: self.bytes.get(i..).unwrap_or(&[]),
        }
    }

    // Three functions: `from_le_bytes` is each type's own, so that one function over a trait would need an impl with the same line for each type.

    /// The number in the two bytes at i.
    #[tactic(auto, using(crate::proofs::Numbers::padded))]
    pub fn u16_at(self, i: usize) -> u16
        ensures { result ≡ field 2 i self.entry.bytes.now }
    {
        u16::from_le_bytes(front(self.rest(i).bytes))
    }

    /// The number in the four bytes at i.
    #[tactic(auto, using(crate::proofs::Numbers::padded))]
    pub fn u32_at(self, i: usize) -> u32
        ensures { result ≡ field 4 i self.entry.bytes.now }
    {
        u32::from_le_bytes(front(self.rest(i).bytes))
    }

    /// The number in the eight bytes at i.
    #[tactic(auto, using(crate::proofs::Numbers::padded))]
    pub fn u64_at(self, i: usize) -> u64
        ensures { result ≡ field 8 i self.entry.bytes.now }
    {
        u64::from_le_bytes(front(self.rest(i).bytes))
    }
}

/// The first N bytes, 0 in place of each beyond the end.
fn front<const N: usize>(bytes: &[u8]) -> [u8; N]
    ensures { result ≡ sized N bytes.now }
{
    match bytes.first_chunk() {
        Some(all) => *all,
        None => padded(bytes),
    }
}

/// The same of bytes that are too few.
#[cold]
fn padded<const N: usize>(bytes: &[u8]) -> [u8; N]
    requires { length bytes.now < N }
    ensures { result ≡ sized N bytes.now }
{
    let mut all = [0; N];
    all[..bytes.len()].copy_from_slice(bytes);
    all
}
