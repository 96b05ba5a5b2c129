// Labels, labelled moves and reductions: laws. No functions.
#![tactic(auto)]
