// What the call for all starts gives (document 02, card 1): the type, the definition of the call and its promise. No functions.
#![tactic(auto)]

// What the call returns of a grouping: the number of the result's round, and the answer's length in bytes.
#[derive(Clone, Copy, PartialEq, Eq, Debug)]
pub struct Grouped {
    pub round: usize,
    pub length: usize,
}
