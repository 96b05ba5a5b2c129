// What members and moves in the work slice mean for the set of a comparison: definitions and laws. No functions.
#![tactic(auto)]
