// Lists, tests and orders: laws that the crates above cite. No functions.
#![tactic(auto)]
