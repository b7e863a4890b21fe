// What a bearer is: one meaning, the calls that alter it, and the trait by which every implementation shows it.
#![tactic(auto)]

pub mod code;
pub mod heard;
pub mod questions;
mod shown;
pub mod side;
pub mod told;

pub use shown::Bearer;
