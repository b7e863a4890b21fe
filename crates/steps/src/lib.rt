// How a string was read, step by step.
#![tactic(auto)]

pub mod step;
