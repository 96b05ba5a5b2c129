// What the comparing call gives, what of an outcome calls return, and how the bytes of an answer are read back. No functions.
#![tactic(auto)]

// What the call returns of a report: SAME or DIFF, the round, the places of both starts, and the report's length in bytes.
#[derive(Clone, Copy, PartialEq, Eq, Debug)]
pub struct Reported {
    pub same: bool,
    pub round: usize,
    pub left: usize,
    pub right: usize,
    pub length: usize,
}
