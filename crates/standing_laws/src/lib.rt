// Facts that always stand: what they change in a report, and that sheets without them are document 01's. No functions.
#![tactic(auto)]
