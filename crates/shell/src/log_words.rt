use bearer::code::Code;
use dialogue_log::enter::Outcome;
use std::fmt;
use terms::stop::Stop;
use wire::pdu::Pdu;
use wording::words::{FaultWords, PduWords};

// The result line of an entry: the dialogue's number and service code, and what came of the entry.
#[derive(Clone, Copy)]
pub(crate) struct ResultLine<'a> {
    pub(crate) number: u32,
    pub(crate) code: Code,
    pub(crate) played: Result<Outcome<Pdu<'a>>, Stop>,
}

// A service code's digits, or `-` for none.
#[derive(Clone, Copy)]
struct CodeWords(Code);

impl fmt::Display for CodeWords {
    fn fmt<W: fmt::Write>(&self, f: &mut fmt::Formatter<W>) -> fmt::Result {
        let digits = self.0.as_slice();
        if digits.is_empty() {
            return f.write_str("-");
        }
        for digit in digits {
            f.write_char(*digit as char)?;
        }
        Ok(())
    }
}

impl fmt::Display for ResultLine<'_> {
    fn fmt<W: fmt::Write>(&self, f: &mut fmt::Formatter<W>) -> fmt::Result {
        write!(f, "dialogue={} code={} ", self.number, CodeWords(self.code))?;
        match self.played {
            Ok(Outcome::Taken(pdu)) => write!(f, "{}", PduWords(pdu)),
            Ok(Outcome::Closed) => f.write_str("closed"),
            Ok(Outcome::Lost) => f.write_str("lost"),
            Err(Stop::Faulty(fault)) => write!(f, "{}", FaultWords(fault)),
            Err(Stop::Refused(no)) => write!(f, "refused {}", no.number()),
        }
    }
}
