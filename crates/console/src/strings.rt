ghost use Rattle.std.specs.Prelude.{◌≡◌, OnOk};
ghost use Rattle.console.specs.Line.{meaning, without_end};
ghost use Rattle.console.specs.Tally.{none, counted_sound, counted_string, counted_line};

use crate::line::{Line, read_line, without_end};
use rules::rule::Rule;
use std::alloc::{AllocError, Global};
use std::fmt;
use steps::step::{Step, steps};
use terms::fault::Fault;
use wire::pdu::Pdu;
use wording::dump::Dump;
use wording::words::{FaultWords, PduWords};

// How many lines, and how many strings of either kind, were read.
#[derive(Clone, Copy, PartialEq, Eq, Debug, Default)]
pub struct Tally {
    pub lines: u64,
    pub sound: u64,
    pub broken: u64,
}

impl Tally {
    pub fn new() -> Tally
        ensures { result ≡ none }
    {
        Tally::default()
    }

    // One string more, sound or broken.
    fn count(&mut self, sound: bool)
        ensures { self.new ≡ counted_sound sound self.old }
    {
        if sound {
            self.sound = self.sound.saturating_add(1);
        } else {
            self.broken = self.broken.saturating_add(1);
        }
    }
}

impl fmt::Display for Tally {
    fn fmt<W: fmt::Write>(&self, f: &mut fmt::Formatter<W>) -> fmt::Result {
        let sound = self.sound;
        let broken = self.broken;
        let read = sound.saturating_add(broken);
        write!(f, "strings read {read}, sound {sound}, broken {broken}")
    }
}

// A string that was read, with the steps of reading it.
#[derive(Drop)]
struct Explained<'a> {
    string: &'a [u8],
    read: Result<Pdu<'a>, Fault>,
    steps: Vec<Step<'a>>,
}

impl fmt::Display for Explained<'_> {
    fn fmt<W: fmt::Write>(&self, f: &mut fmt::Formatter<W>) -> fmt::Result {
        match self.read {
            Ok(pdu) => {
                let words = PduWords(pdu);
                writeln!(f, "{words}")?;
            }
            Err(fault) => {
                let words = FaultWords(fault);
                writeln!(f, "{words}")?;
            }
        }
        for step in self.steps.iter() {
            writeln!(f, "  {step}")?;
        }
        if let Err(fault) = self.read {
            let place = fault.place;
            let octets = self.string;
            let dump = Dump { octets, place };
            let rule = Rule::behind(octets, fault);
            writeln!(f, "{dump}  at {place}: {rule}")?;
        }
        Ok(())
    }
}

fn explain(heap: Global, tally: &mut Tally, string: &[u8]) -> Result<String, AllocError>
    ensures { tally.new ≡ counted_string string.now tally.old }
{
    let read = reader::read(string);
    tally.count(read.is_ok());
    let steps = steps(heap, string, read)?;
    let answer = Explained {
        string,
        read,
        steps,
    };
    format!(in heap; "{answer}")
}

// What is answered to a line of input; the tally counts the line, and the string if it holds one.
pub fn answer(heap: Global, tally: &mut Tally, line: &[u8]) -> Result<String, AllocError>
    ensures { OnOk result (tally.new ≡ counted_line (meaning (without_end line.now)) tally.old) }
{
    tally.lines = tally.lines.saturating_add(1);
    match read_line(heap, without_end(line))? {
        Line::PassedOver => Ok(String::new(heap)),
        Line::String(octets) => explain(heap, tally, octets.as_slice()),
        Line::Refused(reason) => {
            let n = tally.lines;
            format!(in heap; "refused input line {n}: {reason}\n")
        }
    }
}
