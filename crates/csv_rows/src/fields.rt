//! The first field of a text: a number, perhaps behind a minus, a fault or a word, bare or in quotes (RULES 13.2 to 13.4, 13.7).
//! Each reading gives what the field says and what is left behind it, or nothing. No end is looked for ahead, so every byte is read once.
ghost use Rattle.std.specs.Prelude.{◌≡◌, List, ℕ, Option};
ghost use Rattle.csv_text.specs.Shapes.{signed, unsigned};
ghost use Rattle.csv_rows.specs.Fields.{Plain, numeral_said, signed_said, fault_said, word_said, SaysPlain, Front, Ended, Reads, FieldsIf, LinesIf};

use csv_text::Fault;

// No `Result`: neither side is an error.
/// What is left behind a field: the further fields of its record, or the lines behind that record.
#[derive(Clone, Copy, PartialEq, Eq, Debug)]
pub enum Rest<'a> {
    Fields(&'a [u8]),
    Lines(&'a [u8]),
}

// A flag, as `Fault` (csv_text) has it, which is made of this.
/// A number, perhaps behind a minus: what its digits say, and whether the minus is there.
#[derive(Clone, Copy, PartialEq, Eq, Debug)]
pub struct Signed {
    pub value: u64,
    pub absent: bool,
}

impl<'a> Rest<'a> {
    /// The further fields, if there are any.
    pub fn fields(self) -> Option<&'a [u8]>
        ensures { FieldsIf self.entry result }
    {
        match self {
            Rest::Fields(fields) => Some(fields),
            Rest::Lines(_) => None,
        }
    }

    /// The lines behind the record, if no further field comes before them.
    pub fn lines(self) -> Option<&'a [u8]>
        ensures { LinesIf self.entry result }
    {
        match self {
            Rest::Fields(_) => None,
            Rest::Lines(lines) => Some(lines),
        }
    }
}

/// What is left behind a field that ends at the front of a text: at a comma, or where its record ends, in CR LF or with the text.
pub fn ended(text: &[u8]) -> Option<Rest<'_>>
    ensures { Ended text.now result }
{
    match text {
        [b',', rest @ ..] => Some(Rest::Fields(rest)),
        [b'\r', b'\n', rest @ ..] => Some(Rest::Lines(rest)),
        [] => Some(Rest::Lines(text)),
        _ => None,
    }
}

/// The number at the front of a text: `0`, or up to ten digits of which the first is another.
fn number(text: &[u8]) -> Option<(u64, &[u8])>
    ensures { Front numeral_said text.now result }
{
    if let [b'0', rest @ ..] = text {
        return Some((0, rest));
    }
    let mut n = 0;
    let mut rest = text;
    // A loop: `take_while` would not tell where the digits end, and `split` would look for that first and read each byte twice.
    while let [digit @ b'0'..=b'9', behind @ ..] = rest {
        if n > 999_999_999 {
            return Some((n, rest));
        }
        n = 10 * n + u64::from(*digit - b'0');
        rest = behind;
    }
    if n == 0 { None } else { Some((n, rest)) }
}

/// Whether a minus is at the front of a text, and what stands behind it.
#[inline(always)]
fn minus(text: &[u8]) -> (bool, &[u8])
    ensures is { result.0 ≡ signed text.now }
    ensures behind { result.1.now ≡ unsigned text.now }
{
    match text {
        [b'-', digits @ ..] => (true, digits),
        _ => (false, text),
    }
}

/// The number at the front of a text, perhaps behind a minus.
pub fn signed_number(text: &[u8]) -> Option<(Signed, &[u8])>
    ensures { Front signed_said text.now result }
{
    let (absent, digits) = minus(text);
    let (value, rest) = number(digits)?;
    Some((Signed { value, absent }, rest))
}

/// The fault at the front of a text: its number, counted from 1, behind a minus if it is absent.
fn named_fault(text: &[u8]) -> Option<(Fault, &[u8])>
    ensures { Front fault_said text.now result }
{
    let (Signed { value, absent }, rest) = signed_number(text)?;
    let place = value.checked_sub(1)?;
    Some((Fault { place, absent }, rest))
}

/// The word at the front of a text.
fn spelled<'a>(text: &'a [u8], word: &[u8]) -> Option<((), &'a [u8])>
    ensures { Front (word_said word.now) text.now result }
{
    Some(((), text.strip_prefix(word)?))
}

// What `read` says is named by the proof of each caller, in one line. A trait could say it, but would want a type and an impl for each reading.
/// The first field, bare or in quotes, of which the bytes are read by `read`.
#[inline(always)]
fn field<'a, T: Drop, R: Fn(&'a [u8]) -> Option<(T, &'a [u8])>>(
    text: &'a [u8],
    read: R,
) -> Option<(T, Rest<'a>)>
    requires { R.IsAlwaysCallable read }
    ensures { (says : List ℕ → Option T) → SaysPlain says
        → ((t : _) (r : _) → R.post read t r → Front says t.now r) → Reads says text.now result }
{
    let (value, rest) = match text {
        [b'"', inner @ ..] => {
            let (value, rest) = read(inner)?;
            let [b'"', rest @ ..] = rest else {
                return None;
            };
            (value, rest)
        }
        _ => read(text)?,
    };
    Some((value, ended(rest)?))
}

/// The first field as a number.
pub fn number_field(text: &[u8]) -> Option<(u64, Rest<'_>)>
    ensures { Reads numeral_said text.now result }
{
    field(text, number)
}

// No code here calls it: it stays for its contract (docs/CONTRACTS.md).
/// The first field as a number, perhaps behind a minus.
pub fn signed_field(text: &[u8]) -> Option<(Signed, Rest<'_>)>
    ensures { Reads signed_said text.now result }
{
    field(text, signed_number)
}

/// The first field as a fault. A text has a great many, so this is done in place.
#[inline(always)]
pub fn fault_field(text: &[u8]) -> Option<(Fault, Rest<'_>)>
    ensures { Reads fault_said text.now result }
{
    field(text, named_fault)
}

/// The first field as a word.
pub fn word_field<'a>(text: &'a [u8], word: &[u8]) -> Option<((), Rest<'a>)>
    requires { Plain word.now }
    ensures { Reads (word_said word.now) text.now result }
{
    field(text, |t| spelled(t, word))
}
