// What reading a byte string gives, and that it is what document 01 says of the bytes. No functions.
#![tactic(auto)]
