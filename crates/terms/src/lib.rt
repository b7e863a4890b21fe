// The words that every layer shares: refusals, causes, faults, and the laws of ordered questions.
#![tactic(auto)]

pub mod cause;
pub mod fault;
pub mod laws;
pub mod octets;
pub mod refusal;
pub mod stop;
