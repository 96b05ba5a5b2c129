// The set, the rounds, the report and the whole call: laws, and demand 3 proved of the definitions. No functions.
#![tactic(auto)]
