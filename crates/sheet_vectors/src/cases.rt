//! The sheet of RULES 11.7, 72 bytes: 3 faults, cue 7 with two ways and cue 9 with none; and the cases, which cut or change it.
//! Rests on `writer`. Values stand in figures, as RULES has them: a case does not take from the library what it tests.
use rules::Limits;
use writer::lists::Lists;
use writer::write;

/// A field of the sheet: where it stands and how wide it is. A tuple: no call may stand in a constant, and rows of field names are no plainer.
pub type Field = (usize, usize);

const FAULTS: Field = (0, 2);

const CUES: Field = (2, 2);

const ALLOWANCE: Field = (4, 4);

const BUDGET: Field = (8, 2);

const MODE: Field = (10, 2);

const FIRST_NUMBER: Field = (12, 2);

const FIRST_WAYS: Field = (14, 2);

const FIRST_PLACE: Field = (16, 4);

const LAST_NUMBER: Field = (20, 2);

const LAST_WAYS: Field = (22, 2);

const LAST_PLACE: Field = (24, 4);

const FIRST_WEIGHT: Field = (28, 4);

const LAST_WEIGHT: Field = (36, 4);

const FIRST_PRESENT: Field = (40, 8);

const FIRST_ABSENT: Field = (48, 8);

const LAST_PRESENT: Field = (56, 8);

const LAST_ABSENT: Field = (64, 8);

/// The length of the sheet.
const WHOLE: usize = 72;

/// The room for it, with zeros behind.
const ROOM: usize = 80;

/// A name, how many bytes of the sheet and of the zeros behind it there are, and what is changed in it. A tuple: rows of a struct's field names
/// would be no plainer.
pub type Case = (&'static str, usize, &'static [(Field, u64)]);

/// The cases, in the order in which they are printed.
pub const CASES: &[Case] = &[
    // Accepted: the sheet itself, and its limits at the ends of what is allowed.
    ("paper", WHOLE, &[]),
    ("budget 1", WHOLE, &[(BUDGET, 1)]),
    ("budget 0", WHOLE, &[(BUDGET, 0)]),
    ("budget 255", WHOLE, &[(BUDGET, 255)]),
    ("allowance 0", WHOLE, &[(ALLOWANCE, 0)]),
    ("allowance S", WHOLE, &[(ALLOWANCE, 1000000000)]),
    ("twice is less", WHOLE, &[(ALLOWANCE, 24999999)]),
    ("twice after 1", WHOLE, &[(ALLOWANCE, 25000000)]),
    ("twice at once", WHOLE, &[(ALLOWANCE, 50000000)]),
    // Accepted: the mode is 1, so that the allowance is a share.
    ("mode 1", WHOLE, &[(MODE, 1)]),
    ("share 0", WHOLE, &[(ALLOWANCE, 0), (MODE, 1)]),
    ("share S", WHOLE, &[(ALLOWANCE, 1000000000), (MODE, 1)]),
    ("share after 2", WHOLE, &[(ALLOWANCE, 76923076), (MODE, 1)]),
    ("share after 1", WHOLE, &[(ALLOWANCE, 76923077), (MODE, 1)]),
    (
        "share not doubled",
        WHOLE,
        &[(ALLOWANCE, 166666666), (MODE, 1)],
    ),
    ("share at once", WHOLE, &[(ALLOWANCE, 166666667), (MODE, 1)]),
    ("share spent", WHOLE, &[(BUDGET, 1), (MODE, 1)]),
    // Accepted: other weights, ways and cue numbers.
    ("weight 0", WHOLE, &[(FIRST_WEIGHT, 0)]),
    ("weight S", WHOLE, &[(FIRST_WEIGHT, 1000000000)]),
    ("an empty way", WHOLE, &[(FIRST_PRESENT, 0)]),
    ("fault 2 absent", WHOLE, &[(FIRST_ABSENT, 4)]),
    ("cue number 65535", WHOLE, &[(LAST_NUMBER, 65535)]),
    // 1 and 2: no head, or one with too few or too many faults or cues.
    ("no bytes", 0, &[]),
    ("11 bytes", 11, &[]),
    ("no faults", WHOLE, &[(FAULTS, 0)]),
    ("65 faults", WHOLE, &[(FAULTS, 65)]),
    ("256 faults", WHOLE, &[(FAULTS, 256)]),
    ("no cues", WHOLE, &[(CUES, 0)]),
    ("25 cues", WHOLE, &[(CUES, 25)]),
    // 3 and 4: the head's last two bytes, which are one number, and a sheet too short for what it says.
    ("mode 2", WHOLE, &[(MODE, 2)]),
    ("mode 256", WHOLE, &[(MODE, 256)]),
    ("mode 257", WHOLE, &[(MODE, 257)]),
    ("mode 65535", WHOLE, &[(MODE, 65535)]),
    ("12 bytes", 12, &[]),
    ("39 bytes", 39, &[]),
    ("64 faults", WHOLE, &[(FAULTS, 64)]),
    ("24 cues", WHOLE, &[(CUES, 24)]),
    // 5 and 6: the contents' cue numbers and counts of ways.
    ("cue number 0", WHOLE, &[(FIRST_NUMBER, 0)]),
    ("equal cue numbers", WHOLE, &[(LAST_NUMBER, 7)]),
    ("falling cue numbers", WHOLE, &[(LAST_NUMBER, 6)]),
    ("129 ways", WHOLE, &[(FIRST_WAYS, 129)]),
    ("65535 ways of the last cue", WHOLE, &[(LAST_WAYS, 65535)]),
    // 7 and 8: the bodies' places and their end.
    ("first body off by one", WHOLE, &[(FIRST_PLACE, 41)]),
    ("body of a cue without ways", WHOLE, &[(LAST_PLACE, 40)]),
    ("body far away", WHOLE, &[(FIRST_PLACE, 4294967295)]),
    ("128 ways", WHOLE, &[(FIRST_WAYS, 128)]),
    ("40 bytes", 40, &[]),
    ("71 bytes", 71, &[]),
    ("73 bytes", 73, &[]),
    ("a way too many", WHOLE, &[(LAST_WAYS, 1)]),
    // 10 and 12 to 15: what the sheet holds.
    ("weight S + 1", WHOLE, &[(FIRST_WEIGHT, 1000000001)]),
    ("largest weight", WHOLE, &[(LAST_WEIGHT, 4294967295)]),
    ("present fault 3", WHOLE, &[(FIRST_PRESENT, 1 << 3)]),
    ("absent fault 63", WHOLE, &[(LAST_ABSENT, 1 << 63)]),
    ("fault 0 present and absent", WHOLE, &[(FIRST_ABSENT, 1)]),
    ("allowance S + 1", WHOLE, &[(ALLOWANCE, 1000000001)]),
    ("share S + 1", WHOLE, &[(ALLOWANCE, 1000000001), (MODE, 1)]),
    ("budget 256", WHOLE, &[(BUDGET, 256)]),
    // Two at once, of 1 to 7: the first in the order counts, looked for everywhere before the next.
    ("1 before 2", 11, &[(FAULTS, 0)]),
    ("2 before 3", WHOLE, &[(CUES, 25), (MODE, 2)]),
    ("3 before 4", WHOLE, &[(MODE, 2), (FAULTS, 64)]),
    ("4 before 5", 39, &[(FIRST_NUMBER, 0)]),
    ("5 before 6", WHOLE, &[(FIRST_WAYS, 129), (LAST_NUMBER, 7)]),
    ("6 before 7", WHOLE, &[(FIRST_PLACE, 0), (LAST_WAYS, 129)]),
    // The same of 7 to 15.
    ("7 before 8", 71, &[(LAST_PLACE, 73)]),
    ("8 before 10", 73, &[(FIRST_WEIGHT, 1000000001)]),
    (
        "10 before 12",
        WHOLE,
        &[(LAST_WEIGHT, 1000000001), (FIRST_PRESENT, 8)],
    ),
    (
        "12 before 13",
        WHOLE,
        &[(FIRST_ABSENT, 1), (LAST_PRESENT, 8)],
    ),
    (
        "13 before 14",
        WHOLE,
        &[(FIRST_ABSENT, 1), (ALLOWANCE, 1000000001)],
    ),
    (
        "14 before 15",
        WHOLE,
        &[(BUDGET, 256), (ALLOWANCE, 1000000001)],
    ),
];

/// The sheet of RULES 11.7 and the zeros behind it. Its lists are in order, so that the writer takes them.
fn paper() -> [u8; ROOM] {
    let lists = Lists {
        limits: Limits {
            allowance: 10000000,
            budget: 40,
            mode: 0,
        },
        weights: &[500000000, 500000000, 200000000],
        numbers: &[7, 9],
        counts: &[2, 0],
        present: &[3, 5],
        absent: &[0, 0],
    };
    let mut sheet = [0; ROOM];
    let _ = write(lists, &mut sheet);
    sheet
}

/// Puts a number into its field, little-endian.
fn put(sheet: &mut [u8], (at, width): Field, number: u64) {
    let bytes = number.to_le_bytes();
    if let (Some(field), Some(front)) = (
        sheet.get_mut(at..).and_then(|rest| rest.get_mut(..width)),
        bytes.get(..width),
    ) {
        field.copy_from_slice(front);
    }
}

/// The sheet of a case, with the zeros behind it.
pub fn sheet_of(changes: &[(Field, u64)]) -> [u8; ROOM] {
    let mut sheet = paper();
    for &(field, number) in changes {
        put(&mut sheet, field, number);
    }
    sheet
}
