// A sheet written as bytes, and that what is written is read back. No functions.
#![tactic(auto)]
