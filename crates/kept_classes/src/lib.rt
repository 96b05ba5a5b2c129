// The rounds of a comparison: births of classes, lines, parts of classes, kept dominating moves. Definitions and laws. No functions.
#![tactic(auto)]
