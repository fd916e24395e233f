//! Numbers read from an input, for test programs: decimal digits, one other byte after each number.
//! Past the end of the input, or where it cannot be read, every number is 0. Rests on std and on `arrayvec`.
#![tactic(auto)]

ghost use Rattle.std.specs.Prelude.{◌≡◌, ◌+◌, ◌-◌, ◌*◌, ◌^◌, ◌<◌, ◌≤◌, min, IfOk, vec_len};
ghost use Rattle.std.specs.Io.Iter.{bytes_remaining};
ghost use Rattle.std.specs.Io.Buffered.{reader_remaining};
ghost use Rattle.arrayvec.specs.ArrayVec.{array_vec_len};

use arrayvec::ArrayVec;
use std::alloc::{AllocError, Global};
use std::io;
use std::io::{BufReader, Bytes, Read};

#[cfg(test)]
mod tests;

/// The most digits of a number.
const DIGITS: usize = 20;

/// The numbers that are left of an input, and the memory for lists of them: `()` where they take none.
#[derive(Drop)]
pub struct Numbers<R, A = Global> {
    bytes: Bytes<R>,
    pub alloc: A,
}

impl<R: Read + Drop> Numbers<BufReader<R>> {
    /// The numbers of an input, which is read through a buffer.
    #[tactic(auto, using(crate::proofs::Whole::whole))]
    pub fn new(alloc: Global, reader: R) -> io::Result<Self>
        ensures { IfOk result (λ numbers. bytes_remaining (reader_remaining R.remaining) numbers.bytes ≡ R.remaining reader) }
    {
        let bytes = BufReader::new(alloc, reader)?.bytes();
        Ok(Numbers { bytes, alloc })
    }
}

impl<R: Read + Drop> Numbers<R, ()> {
    /// The numbers of an input, which is read a byte at a time, so that what stands behind the last number is left to who reads next.
    pub fn unbuffered(reader: R) -> Self
        ensures { bytes_remaining R.remaining result.bytes ≡ R.remaining reader }
    {
        let bytes = reader.bytes();
        Numbers { bytes, alloc: () }
    }
}

impl<R: Read + Drop> Numbers<R> {
    /// The next numbers as a list; one that its type does not hold counts as `most`.
    pub fn list<T: TryFrom<u64> + Copy>(
        &mut self,
        count: usize,
        most: T,
    ) -> Result<Vec<T>, AllocError>
    where
        T::Error: Drop,
        ensures { IfOk result (λ list. vec_len list ≡ count) }
    {
        let alloc = self.alloc;
        (0..count)
            .map(|_| T::try_from(self.number()).unwrap_or(most))
            .collect(alloc)
    }
}

impl<R: Read + Drop, A: Drop> Numbers<R, A> {
    /// The next byte; 0 past the end, which both callers take for one that is no digit and no colon: by an `Option` they would be no plainer.
    pub fn byte(&mut self) -> u8 {
        match self.bytes.next() {
            Some(Ok(byte)) => byte,
            _ => 0,
        }
    }

    /// The next number, of at most 20 digits.
    pub fn number(&mut self) -> u64 {
        let mut number = 0;
        for _ in 0..DIGITS {
            let byte = self.byte();
            if !byte.is_ascii_digit() {
                return number;
            }
            number = longer(number, byte);
        }
        self.byte();
        number
    }

    /// The next number as a list's length, of at most so many elements: the input has no longer lists.
    pub fn list_length(&mut self, most: usize) -> usize
        ensures { result ≤ most }
    {
        usize::try_from(self.number()).unwrap_or(most).min(most)
    }

    /// The next numbers as an array, as many as are asked for and there is room for; one that its type does not hold counts as `most`.
    pub fn array<T: TryFrom<u64> + Default + Copy, const N: usize>(
        &mut self,
        count: usize,
        most: T,
    ) -> ArrayVec<T, N>
    where
        T::Error: Drop,
        ensures { array_vec_len result ≡ min count N }
    {
        let mut list = ArrayVec::new();
        'numbers: for _ in 0..count.min(N) {
            list.push(T::try_from(self.number()).unwrap_or(most));
        }
        list
    }
}

/// A number with one more digit, where that fits a word. A digit is 48 and its value.
fn longer(number: u64, digit: u8) -> u64
    requires { 48 ≤ digit }
    ensures { 10 * number + (digit - 48) < 2 ^ 64 → result ≡ 10 * number + (digit - 48) }
{
    number
        .checked_mul(10)
        .map_or(number, |tens| tens.wrapping_add(u64::from(digit - b'0')))
}
