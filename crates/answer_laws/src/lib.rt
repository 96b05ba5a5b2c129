// How the bytes of an answer are read back: laws. No functions.
#![tactic(auto)]
