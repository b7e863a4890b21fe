ghost use Rattle.std.specs.Prelude.{◌≡◌, not, is_some};
ghost use Rattle.std.specs.Option.{unwrap_or};
ghost use Rattle.terms.specs.Question.{first_no};
ghost use Rattle.wire.specs.Header.{fine_of};
ghost use Rattle.rules.specs.HeaderRules.{segment_questions, content_questions, element_questions, length_questions};

use std::fmt;
use wire::header::{PORTS, SEGMENT};

// What is wrong with a header.
#[derive(Clone, Copy, PartialEq, Eq, Debug)]
pub enum HeaderRule {
    Missing,
    Overrun { length: u8, left: usize },
    NoPorts,
    NoLength,
    ElementOverrun { length: u8, left: usize },
    PortsLength(usize),
    SegmentLength(usize),
    CountZero,
    SequenceZero,
    SequenceAbove { sequence: u8, count: u8 },
}

fn segment_rule(octets: &[u8]) -> Option<HeaderRule>
    ensures { result ≡ first_no (segment_questions octets.now) }
{
    let [_reference, count, sequence] = octets else {
        return Some(HeaderRule::SegmentLength(octets.len()));
    };
    if *count < 1 {
        return Some(HeaderRule::CountZero);
    }
    if *sequence < 1 {
        return Some(HeaderRule::SequenceZero);
    }
    if *sequence > *count {
        return Some(HeaderRule::SequenceAbove {
            sequence: *sequence,
            count: *count,
        });
    }
    None
}

// What is wrong with a whole element of a type; nothing exactly where it is fine. A type is any octet, so it is no enum: two have names.
pub fn content_rule(kind: u8, octets: &[u8]) -> Option<HeaderRule>
    ensures first { result ≡ first_no (content_questions kind octets.now) }
    ensures agrees { is_some result ≡ not (fine_of kind octets.now) }
{
    match kind {
        PORTS => (octets.len() != 4).then_some(HeaderRule::PortsLength(octets.len())),
        SEGMENT => segment_rule(octets),
        _ => None,
    }
}

// What is wrong with the element at the head of a header's octets, if anything. Asked of octets: what overruns its header is no `Element`
// that could tell its length.
pub fn element_rule(rest: &[u8]) -> Option<HeaderRule>
    ensures { result ≡ first_no (element_questions rest.now) }
{
    let [kind, len, tail @ ..] = rest else {
        return Some(HeaderRule::NoLength);
    };
    let n = *len as usize;
    if n > tail.len() {
        return Some(HeaderRule::ElementOverrun {
            length: *len,
            left: tail.len(),
        });
    }
    content_rule(*kind, &tail[0..n])
}

// What is wrong with a header by its length octet, which stands at the head of the octets; it lacks ports where it lies within them.
pub fn length_rule(octets: &[u8]) -> HeaderRule
    ensures { result ≡ unwrap_or (first_no (length_questions octets.now)) HeaderRule.NoPorts }
{
    let [len, tail @ ..] = octets else {
        return HeaderRule::Missing;
    };
    if *len as usize > tail.len() {
        return HeaderRule::Overrun {
            length: *len,
            left: tail.len(),
        };
    }
    HeaderRule::NoPorts
}

impl fmt::Display for HeaderRule {
    fn fmt<W: fmt::Write>(&self, f: &mut fmt::Formatter<W>) -> fmt::Result {
        match *self {
            HeaderRule::Missing => write!(f, "the header's length octet is missing"),
            HeaderRule::Overrun { length, left } => {
                write!(
                    f,
                    "header length {length} reaches beyond the string, which has {left} more"
                )
            }
            HeaderRule::NoPorts => write!(f, "the header has no element 05: ports are required"),
            HeaderRule::NoLength => write!(
                f,
                "the element has no length octet: one octet is left in the header"
            ),
            HeaderRule::ElementOverrun { length, left } => {
                write!(
                    f,
                    "element length {length} reaches beyond the header, which has {left} more"
                )
            }
            HeaderRule::PortsLength(n) => write!(f, "element 05 has length 4, not {n}"),
            HeaderRule::SegmentLength(n) => write!(f, "element 00 has length 3, not {n}"),
            HeaderRule::CountZero => write!(f, "element 00 has count 0: counts begin at 1"),
            HeaderRule::SequenceZero => write!(
                f,
                "element 00 has sequence 0: sequences begin at 1"
            ),
            HeaderRule::SequenceAbove { sequence, count } => {
                write!(
                    f,
                    "element 00 has sequence {sequence}, above its count {count}"
                )
            }
        }
    }
}
