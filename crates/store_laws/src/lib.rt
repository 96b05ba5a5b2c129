// Sets of facts, closure, join and the least store: laws. No functions.
#![tactic(auto)]
