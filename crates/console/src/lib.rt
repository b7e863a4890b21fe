// The commands of the program, as functions on octets and text.
#![tactic(auto)]

pub mod command;
pub mod hex;
pub mod line;
pub mod strings;
