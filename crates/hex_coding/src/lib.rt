// Hex as a coding: two capital hexadecimal characters for each octet.
#![tactic(auto)]

mod shown;

pub use shown::Hex;
