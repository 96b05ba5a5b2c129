// What is promised of the comparing call: the statement. No functions.
#![tactic(auto)]
