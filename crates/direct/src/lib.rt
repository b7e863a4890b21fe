// The direct bearer: its line holds the USSD string itself, up to 160 octets.
#![tactic(auto)]

mod form;
mod line;

pub use line::DirectLine;
use lines::state::Carrier;

// The direct bearer. A new one is `Direct::closed(latest, highest)`.
pub type Direct = Carrier<DirectLine>;
