ghost use Rattle.std.specs.Prelude.{◌≡◌, ◌≤◌, length};
ghost use Rattle.wording.specs.Address.{seen, seen_in, address_in, number_in, address_name, address_word, character_of};

use addresses::lawful::size;
use std::fmt;
use wire::kind::{AddressKind, NumberType};

// An address, by the octets of its field; the digits of a number stand two to an octet.
#[derive(Clone, Copy, PartialEq, Eq, Debug)]
pub enum Address<'a> {
    Ipv4(&'a [u8]),
    Ipv6(&'a [u8]),
    Msisdn { of: NumberType, digits: &'a [u8] },
}

impl<'a> Address<'a> {
    // The address in a field, if the field is lawful.
    pub fn in_field(field: &'a [u8]) -> Option<Address<'a>>
        ensures { seen_in result ≡ address_in field.now }
    {
        let content = &field[1..size(field)?];
        match AddressKind::try_from(field[0] / 32).ok()? {
            AddressKind::Ipv4 => Some(Address::Ipv4(content)),
            AddressKind::Ipv6 => Some(Address::Ipv6(content)),
            AddressKind::Msisdn => Some(number(content)),
        }
    }

    // The type as people say it.
    pub fn kind_name(self) -> &'static str
        ensures { result.now ≡ address_name (seen self.entry) }
    {
        match self {
            Address::Ipv4(_) => "IPv4",
            Address::Ipv6(_) => "IPv6",
            Address::Msisdn { .. } => "MSISDN",
        }
    }

    // The word before the address in a result line. Kept beside the name above: a table of both would be no plainer.
    pub fn word(self) -> &'static str
        ensures { result.now ≡ address_word (seen self.entry) }
    {
        match self {
            Address::Ipv4(_) => "ipv4",
            Address::Ipv6(_) => "ipv6",
            Address::Msisdn { .. } => "msisdn",
        }
    }
}

// The number in a field's content: digit count, type octet, digits. A lawful field has one of the two types; for any other octet the definitions
// say Unknown.
fn number(content: &[u8]) -> Address<'_>
    requires { 2 ≤ length content.now }
    ensures { seen result ≡ number_in content.now }
{
    Address::Msisdn {
        of: NumberType::try_from(content[1]).unwrap_or(NumberType::Unknown),
        digits: &content[2..],
    }
}

// The character of a semi-octet; 15 is none. No `TryFrom`: both types are std's.
pub fn character(semi: u8) -> Option<char>
    ensures { result ≡ character_of semi }
{
    match semi {
        0..=9 => Some((b'0' + semi) as char),
        10 => Some('*'),
        11 => Some('#'),
        12 => Some('a'),
        13 => Some('b'),
        14 => Some('c'),
        _ => None,
    }
}

fn show_ipv4<W: fmt::Write>(octets: &[u8], f: &mut fmt::Formatter<W>) -> fmt::Result {
    for (i, b) in octets.iter().enumerate() {
        if i > 0 {
            write!(f, ".")?;
        }
        write!(f, "{b}")?;
    }
    Ok(())
}

fn show_ipv6<W: fmt::Write>(octets: &[u8], f: &mut fmt::Formatter<W>) -> fmt::Result {
    for (i, b) in octets.iter().enumerate() {
        if i > 0 && i % 2 == 0 {
            write!(f, ":")?;
        }
        write!(f, "{b:02x}")?;
    }
    Ok(())
}

// The digits in their octets, the low half first; the 15 that fills the last octet is no digit.
fn show_digits<W: fmt::Write>(octets: &[u8], f: &mut fmt::Formatter<W>) -> fmt::Result {
    for b in octets {
        for semi in [*b % 16, *b / 16] {
            if let Some(c) = character(semi) {
                write!(f, "{c}")?;
            }
        }
    }
    Ok(())
}

impl fmt::Display for Address<'_> {
    fn fmt<W: fmt::Write>(&self, f: &mut fmt::Formatter<W>) -> fmt::Result {
        match self {
            Address::Ipv4(octets) => show_ipv4(octets, f),
            Address::Ipv6(octets) => show_ipv6(octets, f),
            Address::Msisdn { of, digits, .. } => {
                if let NumberType::International = of {
                    write!(f, "+")?;
                }
                show_digits(digits, f)
            }
        }
    }
}
