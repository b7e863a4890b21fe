ghost use Rattle.std.specs.Prelude.{◌≡◌};
ghost use Rattle.rules.specs.Rules.{cause_of, OfCause};

use crate::header_rule::{HeaderRule, element_rule, length_rule};
use crate::octet::header_place;
use addresses::rule::{AddressRule, broken_in};
use std::fmt;
use terms::cause::Cause;
use terms::fault::Fault;
use wire::elements::Elements;
use wire::kind::Kind;

// The rule that a string breaks.
#[derive(Clone, Copy, PartialEq, Eq, Debug)]
pub enum Rule {
    Empty,
    Version(u8),
    NoType(u8),
    MoreToSend(Kind),
    TooMany(Kind),
    CodeMissing(Kind),
    NoCode { kind: Kind, code: u8 },
    Address(AddressRule),
    Header(HeaderRule),
    Other(Cause),
}

fn kind_rule(s: &[u8], place: usize) -> Option<Rule>
    ensures { OfCause Cause.Kind result }
{
    let (first, tail) = s.split_first()?;
    let Ok(kind) = Kind::try_from(*first / 2) else {
        return Some(Rule::NoType(*first / 2));
    };
    match tail {
        [code, ..] if place == 1 => Some(Rule::NoCode { kind, code: *code }),
        _ => Some(Rule::MoreToSend(kind)),
    }
}

fn count_rule(s: &[u8]) -> Option<Rule>
    ensures { OfCause Cause.OctetCount result }
{
    let (first, tail) = s.split_first()?;
    let kind = Kind::try_from(*first / 2).ok()?;
    if tail.is_empty() {
        return Some(Rule::CodeMissing(kind));
    }
    Some(Rule::TooMany(kind))
}

fn field_rule(s: &[u8]) -> Option<Rule>
    ensures { OfCause Cause.AddressField result }
{
    let (_, field) = s.split_first()?;
    broken_in(field).map(Rule::Address)
}

// What is left, from a place behind its length octet on, of the header that begins at `header`; the whole string where the header does
// not lie in it, or the place is not behind the length octet.
fn header_left(s: &[u8], header: usize, place: usize) -> &[u8] {
    match Elements::of(s, header) {
        Some(elements) if place > header => s.get(place..elements.end()).unwrap_or(&[]),
        _ => s,
    }
}

fn header_rule(s: &[u8], place: usize) -> Option<Rule>
    ensures { OfCause Cause.Header result }
{
    let header = header_place(s);
    if place == header {
        let octets = s.get(header..).unwrap_or(&[]);
        return Some(Rule::Header(length_rule(octets)));
    }
    element_rule(header_left(s, header, place)).map(Rule::Header)
}

// The rule that a fault of a cause, at a place of a string, broke; none where the string has no such fault.
fn broken_rule(s: &[u8], cause: Cause, place: usize) -> Option<Rule>
    ensures { OfCause cause result }
{
    match cause {
        Cause::Empty => Some(Rule::Empty),
        Cause::Version => Some(Rule::Version(*s.first()? / 32)),
        Cause::Kind => kind_rule(s, place),
        Cause::OctetCount => count_rule(s),
        Cause::AddressField => field_rule(s),
        Cause::Header => header_rule(s, place),
        _ => None,
    }
}

impl Rule {
    // The rule behind a fault that was found in a string.
    pub fn behind(s: &[u8], fault: Fault) -> Rule
        ensures { cause_of result ≡ fault.cause }
    {
        broken_rule(s, fault.cause, fault.place).unwrap_or(Rule::Other(fault.cause))
    }
}

fn show_too_many<W: fmt::Write>(kind: Kind, f: &mut fmt::Formatter<W>) -> fmt::Result {
    match kind {
        Kind::Ready => write!(f, "{kind} has no octets behind the first"),
        _ => write!(f, "{kind} has one code octet behind the first, and no more"),
    }
}

impl fmt::Display for Rule {
    fn fmt<W: fmt::Write>(&self, f: &mut fmt::Formatter<W>) -> fmt::Result {
        match *self {
            Rule::Empty => write!(f, "the string is empty, and a PDU has at least one octet"),
            Rule::Version(n) => write!(f, "version {n}, and only version 0 is known"),
            Rule::NoType(n) => write!(f, "no PDU type {n}: types are 1 to 5"),
            Rule::MoreToSend(kind) => {
                write!(
                    f,
                    "more to send is set in {kind}: only Data and Data_Long may set it"
                )
            }
            Rule::TooMany(kind) => show_too_many(kind, f),
            Rule::CodeMissing(kind) => {
                write!(
                    f,
                    "{kind} has a code octet behind the first, and it is missing"
                )
            }
            Rule::NoCode { kind, code } => { write!(f, "no {kind} code {code}: codes are 0 to 3") }
            Rule::Address(rule) => write!(f, "{rule}"),
            Rule::Header(rule) => write!(f, "{rule}"),
            Rule::Other(cause) => write!(f, "{cause}"),
        }
    }
}
