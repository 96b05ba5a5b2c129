// Document 02, card 5: the search for the labels of an ask, as a definition.
#![tactic(auto)]
