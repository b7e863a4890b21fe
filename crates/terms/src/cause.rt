ghost use Rattle.std.specs.Prelude.{◌≡◌};
ghost use Rattle.terms.specs.Cause.{cause_number, cause_numbered};

use std::fmt;

// What is wrong with a string that came. A cause stands in an answer; it is no refusal. Each has its
// published number.
#[derive(Clone, Copy, PartialEq, Eq, Debug)]
pub enum Cause {
    Garbled = 40,
    Empty = 41,
    Kind = 42,
    Version = 43,
    AddressField = 44,
    Header = 45,
    OctetCount = 46,
    OutOfStep = 47,
    TooLong = 48,
}

impl Cause {
    // The published number.
    pub fn number(self) -> u8
        ensures table { result ≡ cause_number self }
        ensures back { cause_numbered result ≡ self }
    {
        self as u8
    }

    fn words(self) -> &'static str {
        match self {
            Cause::Garbled => "the string is garbled",
            Cause::Empty => "the string is empty",
            Cause::Kind => "no such PDU type or code, or more to send set where no data is carried",
            Cause::Version => "the version is not 0",
            Cause::AddressField => "the address field is not lawful",
            Cause::Header => "the header is not lawful",
            Cause::OctetCount => "too few or too many octets for this PDU",
            Cause::OutOfStep => "this segment does not follow the ones before",
            Cause::TooLong => "the joined datagram is longer than 1024 octets",
        }
    }
}

impl fmt::Display for Cause {
    fn fmt<W: fmt::Write>(&self, f: &mut fmt::Formatter<W>) -> fmt::Result {
        let number = self.number();
        let words = self.words();
        write!(f, "cause {number}: {words}")
    }
}
