//! The lists of a sheet as the writer is given them, and those that it accepts, kept together with what that says of them.
//! `given` (specs/Given.antt) says what the lists mean.
ghost use Rattle.writer.specs.Given.{given, Short};

use rules::Limits;

/// The limits of the runs, the weight of each fault, the number and the count of ways of each cue, and the two words of each way.
/// As C hands them over: two lists for the cues, and two for the ways. Who fills them keeps them so.
#[derive(Clone, Copy)]
pub struct Lists<'a> {
    pub limits: Limits,
    pub weights: &'a [u32],
    pub numbers: &'a [u16],
    pub counts: &'a [u16],
    pub present: &'a [u64],
    pub absent: &'a [u64],
}

/// Lists that nothing refuses: their words end where the longest sheet ends, or before, so that no place in it can wrap.
#[derive(Clone, Copy)]
pub(crate) struct Accepted<'a> {
    pub lists: Lists<'a>,
    ghost short: { Short (given lists) },
}
