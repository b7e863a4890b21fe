ghost use Rattle.std.specs.Prelude.{◌≡◌, IfOk};
ghost use Rattle.std.specs.List.{list_all};
ghost use Rattle.terms.specs.Question.{first_no};
ghost use Rattle.console.specs.Hex.{is_digit};
ghost use Rattle.console.specs.Line.{is_space, unspaced, groups, unbroken, questions, meaning, seen_line, without_last, without_end};

use crate::hex;
use std::alloc::{AllocError, Global};
use std::fmt;

// Why a line is no string.
#[derive(Clone, Copy, PartialEq, Eq, Debug)]
pub enum Reason {
    NotHex,
    OddCount,
    TooLong,
}

// What a line of input is. Three cases of its own: an Option of a Result would be no plainer than three names.
#[derive(Drop)]
pub enum Line {
    PassedOver,
    String(Vec<u8>),
    Refused(Reason),
}

const LONGEST: usize = 160;

// The line without its spaces.
fn without_spaces(heap: Global, line: &[u8]) -> Result<Vec<u8>, AllocError>
    ensures { IfOk result (λ v. v.items ≡ unspaced line.now) }
{
    line.iter().copied().filter(|c| *c != b' ').collect(heap)
}

fn all_digits(digits: &[u8]) -> bool
    ensures { result ≡ list_all is_digit digits.now }
{
    digits.iter().all(|c| hex::digit(*c).is_some())
}

// Whether no space stands inside an octet: a group of half an octet has only empty groups behind it.
fn is_unbroken(line: &[u8]) -> bool
    ensures { result ≡ unbroken (groups line.now) }
{
    line.split(|c| *c == b' ')
        .skip_while(|group| group.len() % 2 == 0)
        .skip(1)
        .all(|group| group.is_empty())
}

// Why a line is no string, if it is none; `digits` is the line without its spaces.
fn refusal(line: &[u8], digits: &[u8]) -> Option<Reason>
    requires { digits.now ≡ unspaced line.now }
    ensures { result ≡ first_no (questions line.now) }
{
    if !all_digits(digits) || !is_unbroken(line) {
        return Some(Reason::NotHex);
    }
    if digits.len() % 2 != 0 {
        return Some(Reason::OddCount);
    }
    if digits.len() / 2 > LONGEST {
        return Some(Reason::TooLong);
    }
    None
}

// What a line is. It comes without its end.
pub fn read_line(heap: Global, line: &[u8]) -> Result<Line, AllocError>
    ensures { IfOk result (λ l. seen_line l ≡ meaning line.now) }
{
    if let [b'#', ..] = line {
        return Ok(Line::PassedOver);
    }
    let kept = without_spaces(heap, line)?;
    match kept.as_slice() {
        [] => Ok(Line::PassedOver),
        [b'-'] => Ok(Line::String(Vec::new(heap))),
        digits => match refusal(line, digits) {
            Some(reason) => Ok(Line::Refused(reason)),
            None => Ok(Line::String(hex::octets(heap, digits)?)),
        },
    }
}

fn without_last(line: &[u8], end: u8) -> &[u8]
    ensures { result.now ≡ without_last end line.now }
{
    line.strip_suffix(&[end]).unwrap_or(line)
}

// A line without its end, which is LF, or CR and LF, or nothing in the last line.
pub fn without_end(line: &[u8]) -> &[u8]
    ensures { result.now ≡ without_end line.now }
{
    without_last(without_last(line, b'\n'), b'\r')
}

impl fmt::Display for Reason {
    fn fmt<W: fmt::Write>(&self, f: &mut fmt::Formatter<W>) -> fmt::Result {
        let words = match self {
            Reason::NotHex => "not hex",
            Reason::OddCount => "odd count of hex digits",
            Reason::TooLong => "above 160 octets",
        };
        write!(f, "{words}")
    }
}
