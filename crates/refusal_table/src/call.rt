use bearer::Bearer;
use bearer::side::Side;
use lines::line::Line;
use lines::state::Carrier;
use terms::stop::Stop;

// A call of a bearer, with what it is given: a service code, octets, or a raw string.
#[derive(Clone, Copy)]
pub(crate) enum Call {
    Open(Side, &'static [u8], &'static [u8]),
    Give(Side, &'static [u8]),
    Take(Side),
    Close(Side),
    Lose,
    Load(Side, &'static [u8]),
}

// Each call that is tried, with its name.
pub(crate) const CALLS: [(&str, Call); 19] = [
    ("mobile open 12", Call::Open(Side::Mobile, b"12", &[6])),
    ("mobile open 1", Call::Open(Side::Mobile, b"1", &[6])),
    (
        "mobile open 12345",
        Call::Open(Side::Mobile, b"12345", &[6]),
    ),
    ("network open", Call::Open(Side::Network, b"", &[6])),
    ("network open 12", Call::Open(Side::Network, b"12", &[6])),
    (
        "mobile open 12 with 153 octets",
        Call::Open(Side::Mobile, b"12", &[0; 153]),
    ),
    (
        "mobile open 12 with 80",
        Call::Open(Side::Mobile, b"12", &[0x80]),
    ),
    ("mobile give", Call::Give(Side::Mobile, &[6])),
    ("network give", Call::Give(Side::Network, &[6])),
    (
        "mobile give 153 octets",
        Call::Give(Side::Mobile, &[0; 153]),
    ),
    ("network give 80", Call::Give(Side::Network, &[0x80])),
    ("mobile take", Call::Take(Side::Mobile)),
    ("network take", Call::Take(Side::Network)),
    ("mobile close", Call::Close(Side::Mobile)),
    ("network close", Call::Close(Side::Network)),
    ("lose", Call::Lose),
    ("mobile load", Call::Load(Side::Mobile, &[6])),
    ("network load", Call::Load(Side::Network, &[6])),
    (
        "mobile load 641 octets",
        Call::Load(Side::Mobile, &[0; 641]),
    ),
];

impl Call {
    // Makes the call; the number is how many octets were taken.
    pub(crate) fn make<L: Line>(
        self,
        b: &mut Carrier<L>,
        place: &mut [u8; 160],
    ) -> Result<usize, Stop> {
        match self {
            Call::Open(side, code, octets) => b.open(side, code, octets)?,
            Call::Give(side, octets) => b.give(side, octets)?,
            Call::Take(side) => return b.take(side, place),
            Call::Close(side) => b.close(side)?,
            Call::Lose => b.lose()?,
            Call::Load(side, raw) => b.load(side, raw)?,
        }
        Ok(0)
    }
}
