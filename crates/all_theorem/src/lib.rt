// What the call for all starts promises, proved of what it returns and leaves in both slices. No functions.
#![tactic(auto)]
