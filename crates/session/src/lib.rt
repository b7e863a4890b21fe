// Sessions: one side's place in a dialogue of any bearer, as a value whose type tells whether it speaks or listens. Each
// call spends it, and hands back the next one or, with the refusal, the same.
#![tactic(auto)]

mod answer;
mod laws;
mod listening;
mod shared;
mod speaking;
pub mod state;

pub use answer::answer_once;
pub use laws::sessions_in_step;
pub use state::Session;
