// Two starts of a sheet among the members of the set that stands in the work slice, and what is made of them there. No functions.
#![tactic(auto)]
