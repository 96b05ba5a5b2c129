// The call for the labels of an ask keeps its promise, and the promise fixes the call. No functions.
#![tactic(auto)]
