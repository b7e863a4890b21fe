// The gateway bearer: its line is the XML of a USSD gateway, up to 640 octets.
#![tactic(auto)]

mod form;
mod head;
pub mod row;

use lines::state::Carrier;
use row::Row;

// The gateway bearer. A new one is `Gateway::closed(latest, highest)`.
pub type Gateway = Carrier<Row>;
