// Pioneers in scratch: the string of a level list, whether a string is balanced under one root, its flags, and its pioneer string.
#![tactic(auto)]

pub mod compact;
pub mod flags;
pub mod root;
pub mod string;
