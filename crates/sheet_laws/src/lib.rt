// Reading a sheet and opening its nodes: laws. No functions.
#![tactic(auto)]
