// Words of the program's arguments.
#![tactic(auto)]

pub mod pile;
