// The moves of a configuration node by node: definitions and laws. No functions.
#![tactic(auto)]
