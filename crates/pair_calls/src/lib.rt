// From the beginning of a call on two starts, and what it makes of their set, to its outcome, for any such call. No functions.
#![tactic(auto)]
