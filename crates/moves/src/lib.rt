// Labels, labelled moves and reductions (document 01, "Configurations and moves"): definitions. No functions.
#![tactic(auto)]
