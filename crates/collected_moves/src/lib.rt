// Members and moves in the work slice while the set is worked out: types, definitions and laws. No functions.
#![tactic(auto)]

// How many members, moves of all members together, and threads of a member there may be.
#[derive(Clone, Copy)]
pub struct Caps {
    pub members: usize,
    pub moves: usize,
    pub threads: usize,
}

// How many members there are, how many moves, and a place in the order below which all members are explored.
#[derive(Clone, Copy)]
pub struct Running {
    pub members: usize,
    pub moves: usize,
    pub low: usize,
}
