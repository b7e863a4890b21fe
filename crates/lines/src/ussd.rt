use terms::octets::Octets;

// How many octets a USSD string has room for.
pub const ROOM: usize = 160;

pub type Ussd = Octets<ROOM>;
