// The set, the rounds, the report, the whole call and what is promised of them (document 01): definitions and the known cases. No functions.
#![tactic(auto)]
