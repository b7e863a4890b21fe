// Raw strings brought into the lowest bearer of a pile.
#![tactic(auto)]

mod carried;
mod piled;
mod shown;

pub use shown::Loads;
