// Lines of the program `answers` that change what stands, beside build and growth: the walk, and a dictionary's build.
#![tactic(auto)]

pub mod dict;
pub mod walking;
