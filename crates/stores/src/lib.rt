// Facts, sets, rules, closure, constraints and stores (document 01, "Facts and stores"): definitions. No functions.
#![tactic(auto)]
