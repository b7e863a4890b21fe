// Addresses: which rule octets break that are no address field, and address fields made from addresses.
#![tactic(auto)]

pub mod field;
pub mod lawful;
pub mod make;
pub mod number;
pub mod rule;
