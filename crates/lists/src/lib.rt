// Notions of lists that the definitions are written with. No functions.
#![tactic(auto)]
