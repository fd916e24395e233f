//! What the programs share: how an input is read, a space that a call fills, and how a program ends. Rests on std alone.
#![tactic(auto)]

ghost use Rattle.std.specs.Prelude.{◌≡◌, ◌≤◌, IfOk, IfErr, IfSome, take, length, vec_len};
ghost use Rattle.std.specs.Io.{StartsWith};
ghost use Rattle.std.specs.Io.KnownBytes.{Consumes};
ghost use Rattle.std.specs.IoError.{error_kind};
ghost use Rattle.std.specs.declared.io.ErrorKind.{ErrorKind};

use std::alloc::{AllocError, Global};
use std::io;
use std::io::{ErrorKind, Read};

/// The length of the longest sheet. `rules` proves that there is one of this length (`longest-sheet`) and none that is longer (`sheet-bytes`); this
/// crate rests on std alone.
pub const LONGEST_SHEET: usize = 49612;

/// As many bytes of a sheet are read, one more than the longest has, so that a longer input is refused as one.
pub const SHEET_READ: usize = LONGEST_SHEET + 1;

/// Puts what an input has to the front of a space, until it is full, and counts these bytes. A read that a signal interrupts is tried again; one that
/// fails is taken for the end.
pub fn read_front<R: Read>(reader: &mut R, space: &mut [u8]) -> usize
    ensures within { result ≤ length space.new }
    ensures taken { Consumes (R.remaining reader.old) (R.remaining reader.new) (take result space.new) }
    ensures front { IfSome (R.remaining reader.old) (λ input. StartsWith (take (length space.old) input) (take result space.new)) }
{
    let mut count = 0;
    // Nothing says that an input ends: the loop gives up as late as those of std do.
    for _ in 0..u64::MAX {
        if count >= space.len() {
            break;
        }
        match reader.read(&mut space[count..]) {
            Ok(0) => break,
            Ok(n) => count += n,
            Err(why) if why.kind() == ErrorKind::Interrupted => {}
            Err(_) => break,
        }
    }
    count
}

/// What an input has, at most so many bytes from its front on. A read that fails is taken for the end.
pub fn read_up_to<R: Read + Drop>(
    alloc: Global,
    reader: R,
    most: usize,
) -> Result<Vec<u8>, AllocError>
    ensures front { IfOk result (λ bytes. IfSome (R.remaining reader) (λ input. StartsWith (take most input) bytes.items)) }
{
    let mut bytes = Vec::with_capacity(alloc, most)?;
    let _ = reader.take(most as u64).read_to_end(&mut bytes);
    Ok(bytes)
}

/// What a call puts to the front of a space of so many bytes, or why it is refused.
pub fn filled<E, F: FnOnce(&mut [u8]) -> Result<u64, E>>(
    alloc: Global,
    room: usize,
    fill: F,
) -> Result<Result<Vec<u8>, E>, AllocError>
where
    requires { F.IsAlwaysCallable fill }
    ensures { IfOk result (λ answer. IfOk answer (λ bytes. vec_len bytes ≤ room)) }
{
    let mut space = vec![in alloc; 0; room]?;
    match fill(&mut space) {
        Ok(length) => {
            space.truncate(length as usize);
            Ok(Ok(space))
        }
        Err(why) => Ok(Err(why)),
    }
}

/// How a program ends that fails only for want of memory: what else went wrong, as output that cannot be written, is lost.
pub fn only_for_memory(outcome: io::Result<()>) -> io::Result<()>
    ensures kept { IfErr outcome (λ why. error_kind why ≡ ErrorKind.OutOfMemory → result ≡ outcome) }
    ensures only { IfErr result (λ why. error_kind why ≡ ErrorKind.OutOfMemory) }
{
    match outcome {
        Err(why) if why.kind() == ErrorKind::OutOfMemory => Err(why),
        _ => Ok(()),
    }
}
