// The call for so many rounds keeps its promise, and the sentences of its card follow: the proof. No functions.
#![tactic(auto)]
