// Parentheses: the level builder, which plans and writes a string, its pioneer strings and their dictionaries.
#![tactic(auto)]

pub mod levels;
mod plans;
mod writes;
