// Rounds, levels and saturated barbed bisimulations over any labelled moves: theorems. No functions.
#![tactic(auto)]
