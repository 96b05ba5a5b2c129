// The set, rounds with redundancy, levels and saturated barbed bisimulations over any labelled moves: definitions. No functions.
#![tactic(auto)]
