// The wire: what a PDU is, which octets it has, and which rules a string must keep to be read as one.
#![tactic(auto)]

pub mod code;
pub mod elements;
pub mod header;
pub mod kind;
pub mod no_such_number;
pub mod pdu;
pub mod segment;
