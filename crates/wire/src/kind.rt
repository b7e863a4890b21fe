ghost use Rattle.std.specs.Prelude.{◌≡◌};
ghost use Rattle.wire.specs.NoSuchNumber.{named};
ghost use Rattle.wire.specs.Kind.{kind_number, kind_numbered, pdu_name, address_kind_number, address_kind_numbered, number_type_octet, number_type_of};

use crate::no_such_number::NoSuchNumber;
use std::fmt;

// The five types of PDU.
#[derive(Clone, Copy, PartialEq, Eq, Debug)]
pub enum Kind {
    Data = 1,
    DataLong = 2,
    Ready = 3,
    Error = 4,
    Release = 5,
}

impl Kind {
    // Bits 4 to 1 of a PDU's first octet.
    pub fn number(self) -> u8
        ensures { result ≡ kind_number self }
    {
        self as u8
    }

    // The name of a type as people say it, which Display writes.
    pub fn name(self) -> &'static str
        ensures { result.now ≡ pdu_name self }
    {
        match self {
            Kind::Data => "Data",
            Kind::DataLong => "Data_Long",
            Kind::Ready => "RR",
            Kind::Error => "Error",
            Kind::Release => "RD",
        }
    }
}

impl TryFrom<u8> for Kind {
    type Error = NoSuchNumber;

    ghost try_from_gives = { λ n r. r ≡ named (kind_numbered n) };

    fn try_from(number: u8) -> Result<Kind, NoSuchNumber> {
        match number {
            1 => Ok(Kind::Data),
            2 => Ok(Kind::DataLong),
            3 => Ok(Kind::Ready),
            4 => Ok(Kind::Error),
            5 => Ok(Kind::Release),
            _ => Err(NoSuchNumber),
        }
    }
}

impl fmt::Display for Kind {
    ghost use Rattle.std.specs.Prelude.{Some};

    ghost output = { λ kind. Some (pdu_name kind) };

    fn fmt<W: fmt::Write>(&self, f: &mut fmt::Formatter<W>) -> fmt::Result {
        f.write_str(self.name())
    }
}

// The three types of address.
#[derive(Clone, Copy, PartialEq, Eq, Debug)]
pub enum AddressKind {
    Ipv4 = 0,
    Ipv6 = 1,
    Msisdn = 2,
}

impl AddressKind {
    // Bits 7 to 5 of an address octet.
    pub fn number(self) -> u8
        ensures { result ≡ address_kind_number self }
    {
        self as u8
    }
}

impl TryFrom<u8> for AddressKind {
    type Error = NoSuchNumber;

    ghost try_from_gives = { λ n r. r ≡ named (address_kind_numbered n) };

    fn try_from(number: u8) -> Result<AddressKind, NoSuchNumber> {
        match number {
            0 => Ok(AddressKind::Ipv4),
            1 => Ok(AddressKind::Ipv6),
            2 => Ok(AddressKind::Msisdn),
            _ => Err(NoSuchNumber),
        }
    }
}

// Whether a number begins with a country code.
#[derive(Clone, Copy, PartialEq, Eq, Debug)]
pub enum NumberType {
    Unknown = 0x81,
    International = 0x91,
}

impl NumberType {
    // The octet between a number's digit count and its digits.
    pub fn octet(self) -> u8
        ensures { result ≡ number_type_octet self }
    {
        self as u8
    }
}

impl TryFrom<u8> for NumberType {
    type Error = NoSuchNumber;

    ghost try_from_gives = { λ x r. r ≡ named (number_type_of x) };

    fn try_from(octet: u8) -> Result<NumberType, NoSuchNumber> {
        match octet {
            0x81 => Ok(NumberType::Unknown),
            0x91 => Ok(NumberType::International),
            _ => Err(NoSuchNumber),
        }
    }
}
