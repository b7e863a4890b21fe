// The reader: from a string to the PDU that stands there, or to the first rule that it breaks.
#![tactic(auto)]

mod body;
mod header;
mod pdu;

pub use pdu::read;
