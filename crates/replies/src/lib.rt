// Questions of the program `answers` to a dictionary, a bit string and a word, and their answers.
#![tactic(auto)]

pub mod dict;
pub mod op;
pub mod string;
pub mod word;
