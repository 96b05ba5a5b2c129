// What is the same for every call that works out a set: its promise follows from its contract, and fixes the call. No functions.
#![tactic(auto)]
