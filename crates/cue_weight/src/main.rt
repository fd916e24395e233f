//! The program that makes a weight of logs: each argument names a file of sequence bytes, and together they are the logs of one node.
//! Prints the packets discarded, those judged and the weight, or the line of a refusal. Rests on `captures`, whose contracts say what they are; a
//! file is read in pieces, so that it may be of any length.
#![tactic(auto)]

ghost use Rattle.std.specs.Prelude.{◌≡◌, IfOk, IfSome};
ghost use Rattle.captures.specs.Logs.{heard_all, capped, silent};
ghost use Rattle.cue_weight.specs.Reading.{GoesOn, Hears};

use captures::{Fraction, Log};
use rules::Refusal;
use std::alloc::{AllocError, Global};
use std::env::FillError;
use std::io::Read;
use std::rt::{Env, Files};
use std::{fs, io, str};

/// The longest name of a log, in bytes.
const LONGEST_NAME: usize = 4096;

/// Why there is no weight: a refusal; the line of a log that cannot be had; a name that is too long, whose line needs no memory; or no memory. Its two
/// `From` are written by hand: `thiserror` would want a message for each case, and no case is printed by one.
#[derive(Drop)]
enum Stop {
    Refused(Refusal),
    Lacking(String),
    TooLong,
    Failed(AllocError),
}

impl From<Refusal> for Stop {
    fn from(refusal: Refusal) -> Stop {
        Stop::Refused(refusal)
    }
}

impl From<AllocError> for Stop {
    fn from(why: AllocError) -> Stop {
        Stop::Failed(why)
    }
}

/// Reads one piece: the log after it, or nothing at the end of the file.
#[tactic(auto, using(crate::proofs::Unbroken::growing))]
fn read_piece<F: Read>(file: &mut F, log: Log) -> io::Result<Option<Log>>
    ensures grows { IfOk result (λ piece. GoesOn log piece) }
    ensures bytes { IfOk result (λ piece. Hears (F.remaining file.old) (F.remaining file.new) log piece) }
{
    // A buffer and a length: `Read` fills what it is lent and says how far.
    let mut buf = [0u8; 65536];
    let n = file.read(&mut buf)?;
    if n == 0 {
        return Ok(None);
    }
    Ok(Some(log.hear_all(&buf[..n])))
}

/// Reads a file to its end, or to where its log is too long whatever follows; so it ends even where the file does not.
fn read_log<F: Read>(file: &mut F) -> io::Result<Log>
    ensures bytes { IfOk result (λ log. IfSome (F.remaining file.old) (λ bs. log ≡ capped (heard_all silent bs))) }
{
    let mut log = Log::SILENT;
    // By what was heard: there is no index to go over.
    while !log.is_full() {
        let Some(more) = read_piece(file, log)? else {
            break;
        };
        log = more;
    }
    Ok(log)
}

/// The log in the file of this name.
fn log_of(files: &impl Files, name: &str) -> io::Result<Log> {
    let mut file = fs::open(files, name)?;
    read_log(&mut file)
}

/// The system's words for an error, without its number.
fn in_words(text: &str) -> &str {
    match text.split_once(" (os error ") {
        Some((words, _)) => words,
        None => text,
    }
}

/// The log in the file of this name, or the line that says why it cannot be had.
fn log_in(rt: &(impl Files + AllocGlobal), name: &str) -> Result<Log, Stop> {
    match log_of(rt, name) {
        Ok(log) => Ok(log),
        Err(why) => {
            let text = format!(in rt.alloc(); "{why}")?;
            let words = in_words(text.as_str());
            Err(Stop::Lacking(format!(in rt.alloc(); "{name}: {words}")?))
        }
    }
}

/// The line of a name that is no text.
fn no_text(alloc: Global, name: &[u8]) -> Result<String, AllocError> {
    let shown = String::from_utf8_lossy(alloc, name)?;
    format!(in alloc; "{shown}: not in UTF-8")
}

/// The log that argument i names, if there is such an argument. The name is not taken from `env::args`, which does not say which name is not in UTF-8,
/// and asks for memory: `Env::arg` fills a lent buffer, and a longer name is told as one.
fn log_at(rt: &(impl Env + Files + AllocGlobal), i: usize) -> Result<Option<Log>, Stop> {
    let mut name = [0u8; LONGEST_NAME];
    match rt.arg(i, &mut name) {
        Ok(n) => match str::from_utf8(&name[..n]) {
            Ok(text) => Ok(Some(log_in(rt, text)?)),
            Err(_) => Err(Stop::Lacking(no_text(rt.alloc(), &name[..n])?)),
        },
        Err(FillError::NotPresent) => Ok(None),
        Err(FillError::TooLong) => Err(Stop::TooLong),
    }
}

/// The fraction of all logs and its weight: they are added one by one, up to the first that cannot be read, is refused or makes the sum so. No fold of
/// `captures` does it, since a name or a file may fail between two of them.
fn weigh(rt: &(impl Env + Files + AllocGlobal)) -> Result<(Fraction, u32), Stop> {
    let mut sum = Fraction::default();
    for i in 1..usize::MAX {
        let Some(log) = log_at(rt, i)? else {
            break;
        };
        sum = sum.add(log.counted())?;
    }
    Ok((sum, sum.weight()?))
}

/// Prints the one line that the logs come to.
fn main(rt: HostRuntime) -> io::Result<()> {
    match weigh(&rt) {
        Ok((sum, weight)) => println!(rt; "{} {} {weight}", sum.discarded, sum.judged),
        Err(Stop::Refused(refusal)) => println!(rt; "{refusal}"),
        Err(Stop::Lacking(line)) => eprintln!(rt; "{line}"),
        Err(Stop::TooLong) => eprintln!(rt; "the name of a log: File name too long"),
        Err(Stop::Failed(why)) => Err(io::Error::from(why)),
    }
}
