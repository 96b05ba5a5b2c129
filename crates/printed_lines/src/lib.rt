// Lines of output as text: decimal numbers, fields and words. Definitions. No functions.
#![tactic(auto)]
