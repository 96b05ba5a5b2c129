// What the call for the labels of an ask gives (document 02, card 5): the type, the definition of the call and its promise. No functions.
#![tactic(auto)]

// How many labels stand in the slice, and how many sets the search did not skip.
#[derive(Clone, Copy, PartialEq, Eq, Debug)]
pub struct LabelsFound {
    pub count: usize,
    pub tried: usize,
}
