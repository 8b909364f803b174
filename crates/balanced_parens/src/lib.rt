// The tree in six lent areas: build and growth.
#![tactic(auto)]

pub mod builder;
pub mod growth;
