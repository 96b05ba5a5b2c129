// What the second checker keeps its numbers in: one lent slice, read and written with a test of the place; entries of four
// numbers and tables of pairs in it; and lists of threads, each as one number.
#![tactic(auto)]

pub mod areas;
pub mod numbers;
pub mod pairs;
pub mod threads;
