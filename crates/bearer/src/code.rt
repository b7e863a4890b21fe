use terms::octets::Octets;

// A service code of up to four digits; one of no digits stands for none. No `Option`: by the protocol a
// network opens with the code of no digits, as a mobile does with its own.
pub type Code = Octets<4>;
