// The comparing call keeps its promise: the proof. No functions.
#![tactic(auto)]
