// The tree for a caller in C: every function by its plain name, on numbers and slices (include/oscjardum.h).
#![tactic(auto)]

pub mod asks;
mod layout;
pub mod makes;
mod reply;
pub mod walks;
