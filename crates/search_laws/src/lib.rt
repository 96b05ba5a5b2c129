// Laws of the search for the labels of an ask: the order in which sets come up, what is found, and how many sets are not skipped.
#![tactic(auto)]
