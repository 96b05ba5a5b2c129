// A walk over the nodes of one thread: its state. Each node with threads beside it is visited once, what it gives is noted.
#![tactic(auto)]

use ask_labels::Shelf;
use collected_moves::{Caps, Running};

// What stays the same while the moves of one member are collected: how many facts and nodes the sheet has, the member's
// store, where its moves begin, and the caps.
#[derive(Clone, Copy)]
pub struct Basis {
    pub facts: u16,
    pub nodes: usize,
    pub store: u16,
    pub first: usize,
    pub caps: Caps,
}

// Members and moves so far, the shelf of labels, how many nodes were visited, and how many are to be visited.
#[derive(Drop)]
pub struct Walk {
    pub running: Running,
    pub shelf: Shelf,
    pub marks: usize,
    pub top: usize,
}
