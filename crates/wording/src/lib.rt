// How PDUs, faults, addresses and octets are told in words.
#![tactic(auto)]

pub mod address;
pub mod dump;
pub mod octets;
pub mod words;
