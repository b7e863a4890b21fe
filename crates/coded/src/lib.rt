// A bearer with a coding piled on it is a bearer again: strings are encoded on their way down and decoded on their way up.
#![tactic(auto)]

mod parts;
mod pile;
mod shown;

pub use pile::Coded;
