// What the call for so many rounds gives (document 02, card 13): the types, the definition of the call and its promise. No functions.
#![tactic(auto)]

// What the rounds say of the two starts: the same, apart, or not known yet.
#[derive(Clone, Copy, PartialEq, Eq, Debug)]
pub enum Verdict {
    Same,
    Diff,
    Open,
}

// What the call returns of an answer: the verdict, how many classes the round has, how many members the set has, and the answer's length
// in bytes.
#[derive(Clone, Copy, PartialEq, Eq, Debug)]
pub struct Reached {
    pub verdict: Verdict,
    pub classes: usize,
    pub members: usize,
    pub length: usize,
}
