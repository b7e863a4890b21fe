// The writer: a PDU's octets at the head of the caller's buffer.
#![tactic(auto)]

mod buffer;
mod header;
pub mod payload;
mod pdu;

pub use payload::Payload;
pub use pdu::{write_data, write_data_long, write_error, write_ready, write_release};
