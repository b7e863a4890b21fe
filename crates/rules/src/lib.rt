// The rules of the wire in words: which one a string breaks that is no PDU.
#![tactic(auto)]

mod header_rule;
pub mod octet;
pub mod rule;
