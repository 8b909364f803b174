// Only laws of the program logic: a local lent by `&mut` for a call, and a slice lent again for a call.
#![tactic(auto)]
