// Octets as capital hexadecimal characters, two an octet.
// The kit's `hex` is not used: into a slice it writes small letters only, and it reads small letters too.
#![tactic(auto)]

pub mod digits;
pub mod text;
