// A gateway's log: raw lines brought into one bearer in their order, each taken by the other side.
#![tactic(auto)]

pub mod bring;
pub mod enter;
pub mod entry;
