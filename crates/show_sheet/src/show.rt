//! The show: its faults, its cues and the ways in which each cue goes wrong. Change, add or take away rows for a show of your own.

// The faults, as a sheet has them: fault i is bit i of a way's words, and its chance is row i of WEIGHTS.

/// The radio drops the start packet.
const DROPPED: u64 = 1 << 0;
/// The spare radio is switched off.
const SPARE_OFF: u64 = 1 << 1;
/// The packet comes too late when it is sent again.
const RESENT_LATE: u64 = 1 << 2;
/// The sound cue is late.
const SOUND_LATE: u64 = 1 << 3;
/// The front dimmer is slow to answer.
const DIMMER_SLOW: u64 = 1 << 4;
/// The operator presses twice.
const PRESSED_TWICE: u64 = 1 << 5;
/// The headset is dead, so that nobody can call a halt.
const HEADSET_DEAD: u64 = 1 << 6;
/// A moving lamp sticks.
const LAMP_STUCK: u64 = 1 << 7;
/// The fog machine is cold.
const FOG_COLD: u64 = 1 << 8;
/// The follow spot is at the wrong mark.
const WRONG_MARK: u64 = 1 << 9;
/// No fault at all.
const NONE: u64 = 0;

/// The chance of each fault, in billionths.
pub const WEIGHTS: &[u32] = &[
    17500000, // DROPPED
    100000000, // SPARE_OFF
    250000000, // RESENT_LATE
    40000000, // SOUND_LATE
    30000000, // DIMMER_SLOW
    8500000, // PRESSED_TWICE
    12500000, // HEADSET_DEAD
    35000000, // LAMP_STUCK
    60000000, // FOG_COLD
    75000000, // WRONG_MARK
];

/// How exact the figures are to be, in billionths: 0 asks for the narrowest interval there is.
pub const ALLOWANCE: u64 = 0;
/// The most refinements that are made for a cue.
pub const BUDGET: u64 = 8;

/// What the allowance is: 0 a distance from the chance, 1 a share of it.
pub const MODE: u64 = 0;

/// A way in which a cue goes wrong: the faults that it names present, and those that it names absent. A tuple: no call may stand in a constant, and 20
/// rows of field names are no plainer.
pub type Way = (u64, u64);

/// A cue: its number and its ways.
#[derive(Clone, Copy)]
pub struct Cue {
    pub number: u16,
    pub ways: &'static [Way],
}

/// The cues, whose numbers rise.
pub const CUES: &[Cue] = &[
    // House lights out: the start is dropped, and too late when it is sent again.
    Cue {
        number: 1,
        ways: &[(DROPPED | RESENT_LATE, NONE)],
    },
    // Thunder and lightning: one is late and the other is not, since late together they are still in step; or the operator presses twice.
    Cue {
        number: 2,
        ways: &[
            (SOUND_LATE, DIMMER_SLOW),
            (DIMMER_SLOW, SOUND_LATE),
            (PRESSED_TWICE, NONE),
        ],
    },
    // Fog: the machine, the radio or the operator.
    Cue {
        number: 3,
        ways: &[
            (FOG_COLD, NONE),
            (DROPPED | SPARE_OFF | RESENT_LATE, NONE),
            (PRESSED_TWICE | HEADSET_DEAD, NONE),
        ],
    },
    // The interval is switched by hand: no ways.
    Cue {
        number: 5,
        ways: &[],
    },
    // Moving lamps: the radio or a lamp, two groups that share no fault. A slow dimmer gives a lamp that sticks the time it needs.
    Cue {
        number: 8,
        ways: &[
            (DROPPED | SPARE_OFF, NONE),
            (DROPPED | RESENT_LATE, NONE),
            (LAMP_STUCK | WRONG_MARK, NONE),
            (LAMP_STUCK, DIMMER_SLOW),
        ],
    },
    // The finale: nearly everything at once.
    Cue {
        number: 12,
        ways: &[
            (DROPPED | SPARE_OFF, NONE),
            (DROPPED | RESENT_LATE, NONE),
            (SOUND_LATE, DIMMER_SLOW),
            (DIMMER_SLOW, SOUND_LATE),
            (PRESSED_TWICE | HEADSET_DEAD, NONE),
            (LAMP_STUCK | WRONG_MARK, NONE),
            (FOG_COLD | SOUND_LATE, NONE),
            (FOG_COLD | LAMP_STUCK, NONE),
            (PRESSED_TWICE | DROPPED, NONE),
        ],
    },
];
