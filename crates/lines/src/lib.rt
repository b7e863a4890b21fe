// Bearers that hold a line: one text for every form in which a USSD string may stand on a line.
#![tactic(auto)]

mod carrier;
mod frame;
mod hear;
pub mod line;
mod load;
mod moves;
pub mod place;
mod shown;
pub mod state;
pub mod ussd;
