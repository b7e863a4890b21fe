ghost use Rattle.std.specs.Prelude.{◌≡◌, not, is_some};
ghost use Rattle.terms.specs.Question.{first_no};
ghost use Rattle.wire.specs.Address.{address_fine};
ghost use Rattle.wire.specs.Kind.{address_kind_number};
ghost use Rattle.addresses.specs.AddressRules.{half_questions, digits_questions, number_questions, content_questions, field_questions};

use std::fmt;
use wire::kind::{AddressKind, NumberType};

// What is wrong with an octet of two digits.
#[derive(Clone, Copy, PartialEq, Eq, Debug)]
pub enum Half {
    LowFifteen,
    HighFifteen,
    NotFilled,
}

// What is wrong with an address field.
#[derive(Clone, Copy, PartialEq, Eq, Debug)]
pub enum AddressRule {
    Missing,
    NoType(u8),
    Overrun { length: usize, left: usize },
    Ipv4Length(usize),
    Ipv6Length(usize),
    NumberShort(usize),
    DigitCount(u8),
    NumberLength { count: u8, length: usize },
    NumberType(u8),
    Digits { half: Half, place: usize, octet: u8 },
}

// The place of a number's first two digits: behind the PDU's first octet, the address octet, digit count and type octet.
const DIGITS: usize = 4;

// What is wrong with an octet that has the next two of `left` digits, if anything.
fn half_rule(left: usize, x: u8) -> Option<Half>
    ensures { result ≡ first_no (half_questions left x) }
{
    if x % 16 == 15 {
        return Some(Half::LowFifteen);
    }
    if left == 1 && x / 16 != 15 {
        return Some(Half::NotFilled);
    }
    if left != 1 && x / 16 == 15 {
        return Some(Half::HighFifteen);
    }
    None
}

fn digits_rule(count: u8, octets: &[u8]) -> Option<AddressRule>
    ensures { result ≡ first_no (digits_questions count 4 octets.now) }
{
    for (i, x) in octets.iter().enumerate() {
        let left = (count as usize).saturating_sub(2 * i);
        if let Some(half) = half_rule(left, *x) {
            return Some(AddressRule::Digits {
                half,
                place: DIGITS + i,
                octet: *x,
            });
        }
    }
    None
}

fn number_rule(octets: &[u8]) -> Option<AddressRule>
    ensures { result ≡ first_no (number_questions octets.now) }
{
    let [count, kind, digits @ ..] = octets else {
        return Some(AddressRule::NumberShort(octets.len()));
    };
    if !(1..=20).contains(count) {
        return Some(AddressRule::DigitCount(*count));
    }
    if digits.len() != (*count as usize + 1) / 2 {
        return Some(AddressRule::NumberLength {
            count: *count,
            length: octets.len(),
        });
    }
    if NumberType::try_from(*kind).is_err() {
        return Some(AddressRule::NumberType(*kind));
    }
    digits_rule(*count, digits)
}

fn content_rule(kind: AddressKind, octets: &[u8]) -> Option<AddressRule>
    ensures { result ≡ first_no (content_questions (address_kind_number kind) octets.now) }
{
    let length = octets.len();
    match kind {
        AddressKind::Ipv4 => (length != 4).then_some(AddressRule::Ipv4Length(length)),
        AddressKind::Ipv6 => (length != 16).then_some(AddressRule::Ipv6Length(length)),
        AddressKind::Msisdn => number_rule(octets),
    }
}

// What is wrong with the address field at the head of the octets; nothing exactly where it is lawful.
pub fn broken_in(octets: &[u8]) -> Option<AddressRule>
    ensures first { result ≡ first_no (field_questions octets.now) }
    ensures agrees { is_some result ≡ not (address_fine octets.now) }
{
    let [head, tail @ ..] = octets else {
        return Some(AddressRule::Missing);
    };
    let Ok(kind) = AddressKind::try_from(*head / 32) else {
        return Some(AddressRule::NoType(*head / 32));
    };
    let n = *head as usize % 32;
    if n > tail.len() {
        return Some(AddressRule::Overrun {
            length: n,
            left: tail.len(),
        });
    }
    content_rule(kind, &tail[..n])
}

impl fmt::Display for Half {
    ghost use Rattle.std.specs.Prelude.{Some};
    ghost use Rattle.addresses.specs.HalfWords.{half_words};

    ghost output = { λ half. Some (half_words half) };

    fn fmt<W: fmt::Write>(&self, f: &mut fmt::Formatter<W>) -> fmt::Result {
        f.write_str(match self {
            Half::LowFifteen => "has 15 in its low half, which must be a digit",
            Half::HighFifteen => "has 15 in its high half, which must be a digit",
            Half::NotFilled => "must have 15 in its high half: the digit count is odd",
        })
    }
}

impl fmt::Display for AddressRule {
    fn fmt<W: fmt::Write>(&self, f: &mut fmt::Formatter<W>) -> fmt::Result {
        match *self {
            AddressRule::Missing => write!(f, "the address field is missing"),
            AddressRule::NoType(n) => write!(f, "no address type {n}: types are 0 to 2"),
            AddressRule::Overrun { length, left } => {
                write!(
                    f,
                    "address length {length} reaches beyond the string, which has {left} more"
                )
            }
            AddressRule::Ipv4Length(n) => write!(f, "an IPv4 address has length 4, not {n}"),
            AddressRule::Ipv6Length(n) => write!(f, "an IPv6 address has length 16, not {n}"),
            AddressRule::NumberShort(n) => {
                write!(
                    f,
                    "a number needs a digit count and a type octet: length {n} is too short"
                )
            }
            AddressRule::DigitCount(n) => write!(f, "digit count {n}: a number has 1 to 20 digits"),
            AddressRule::NumberLength { count, length } => {
                let asked = 2 + (count as usize + 1) / 2;
                write!(
                    f,
                    "digit count {count} asks for length {asked}, not {length}"
                )
            }
            AddressRule::NumberType(x) => write!(
                f,
                "number type octet {x:02X}: it must be 81 or 91"
            ),
            AddressRule::Digits { half, place, octet } => {
                write!(f, "octet {octet:02X} at {place} {half}")
            }
        }
    }
}
