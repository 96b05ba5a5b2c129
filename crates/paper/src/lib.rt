// The paper's own rules and notions, and that the definitions of the sheet agree with them. No functions.
#![tactic(auto)]
