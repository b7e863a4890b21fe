// The program's commands over standard input and output.
#![tactic(auto)]

mod input;
mod log;
mod log_words;
mod options;
mod player;
mod program;
mod strings;

pub use program::run;
