ghost use Rattle.std.specs.Prelude.{◌≡◌, [], ◌∷◌, length, IfOk, OnOk};
ghost use Rattle.wire.specs.Elements.{elements_left};
ghost use Rattle.wire.specs.Pdu.{carried, first, seen_pdu, seen};
ghost use Rattle.steps.specs.Adds.{Adds};
ghost use Rattle.steps.specs.Steps.{first_octet, seen_step, seen_steps, before, header_steps, body_steps, pdu_steps, field_steps, until_fault, header_fault_steps, fault_steps, steps_of};

use rules::octet::{header_place, octet_at};
use std::alloc::{AllocError, Global};
use std::fmt;
use terms::cause::Cause;
use terms::fault::Fault;
use wire::code::{ErrorCode, ReleaseCode};
use wire::elements::Elements;
use wire::header::{PORTS, Ports, SEGMENT};
use wire::kind::Kind;
use wire::pdu::{Body, Pdu};
use wording::address::Address;

// A step of reading a string.
#[derive(Clone, Copy, PartialEq, Eq, Debug)]
pub enum Step<'a> {
    First(u8),
    Field(&'a [u8]),
    HeaderLength {
        place: usize,
        length: u8,
    },
    Element {
        place: usize,
        kind: u8,
        octets: &'a [u8],
    },
    User {
        place: usize,
        count: usize,
    },
    ErrorTold(ErrorCode),
    Released(ReleaseCode),
}

// A string, and the steps of reading it that were taken so far.
#[derive(Drop)]
struct Trace<'a> {
    string: &'a [u8],
    steps: Vec<Step<'a>>,
}

impl<'a> Trace<'a> {
    fn push(&mut self, step: Step<'a>) -> Result<(), AllocError>
        ensures { OnOk result (Adds self.old (seen_step step.entry ∷ []) self.new) }
    {
        self.steps.push(step)?;
        Ok(())
    }

    fn first_octet(&mut self) -> Result<(), AllocError>
        ensures { OnOk result (Adds self.old (first_octet (first self.old.string.now) ∷ []) self.new) }
    {
        self.push(Step::First(octet_at(self.string, 0)))
    }

    // The elements of a header, as far as they lie within it and begin before `until`.
    fn elements(&mut self, elements: Elements<'a>, until: usize) -> Result<(), AllocError>
        ensures { OnOk result (Adds self.old (before until (elements_left elements.entry)) self.new) }
    {
        for element in elements {
            match element {
                Ok(element) if element.place < until => self.push(Step::Element {
                    place: element.place,
                    kind: element.kind,
                    octets: element.octets,
                })?,
                _ => return Ok(()),
            }
        }
        Ok(())
    }

    // A header at a place: its length octet and its elements that begin before `until`; nothing where it overruns the string.
    fn header(&mut self, at: usize, until: usize) -> Result<(), AllocError>
        ensures { OnOk result (Adds self.old (header_steps at until self.old.string.now) self.new) }
    {
        let Some(elements) = Elements::of(self.string, at) else {
            return Ok(());
        };
        let length = octet_at(self.string, at);
        self.push(Step::HeaderLength { place: at, length })?;
        self.elements(elements, until)
    }

    fn body(&mut self, body: Body<'a>) -> Result<(), AllocError>
        ensures { OnOk result (Adds self.old (body_steps self.old.string.now (carried body.entry)) self.new) }
    {
        self.header(body.header, self.string.len())?;
        self.push(Step::User {
            place: body.user.place,
            count: body.user.octets.len(),
        })
    }

    fn pdu(&mut self, pdu: Pdu<'a>) -> Result<(), AllocError>
        ensures { OnOk result (Adds self.old (pdu_steps self.old.string.now (seen_pdu pdu.entry)) self.new) }
    {
        match pdu {
            Pdu::Data { body, .. } => self.body(body),
            Pdu::DataLong { address, body, .. } => {
                self.push(Step::Field(address.octets))?;
                self.body(body)
            }
            Pdu::Ready => Ok(()),
            Pdu::Error(code) => self.push(Step::ErrorTold(code)),
            Pdu::Release(code) => self.push(Step::Released(code)),
        }
    }

    // The address field before a header at a place, where there is one.
    fn field(&mut self, at: usize) -> Result<(), AllocError>
        ensures { OnOk result (Adds self.old (field_steps at self.old.string.now) self.new) }
    {
        if at > 1 && at <= self.string.len() {
            self.push(Step::Field(&self.string[1..at]))?;
        }
        Ok(())
    }

    // Before which place the elements of a header were read that begins at `at` and has a fault at a place.
    fn until_fault(&self, at: usize, place: usize) -> usize
        ensures { result ≡ until_fault at place self.now.string.now }
    {
        if place == at {
            self.string.len()
        } else {
            place
        }
    }

    // What was read where the header, which begins at `at`, has a fault at a place.
    fn header_fault(&mut self, at: usize, place: usize) -> Result<(), AllocError>
        ensures { OnOk result (Adds self.old (header_fault_steps at place self.old.string.now) self.new) }
    {
        let until = self.until_fault(at, place);
        self.field(at)?;
        self.header(at, until)
    }

    fn fault(&mut self, fault: Fault) -> Result<(), AllocError>
        ensures { OnOk result (Adds self.old (fault_steps self.old.string.now fault) self.new) }
    {
        if fault.place == 0 {
            return Ok(());
        }
        self.first_octet()?;
        if fault.cause == Cause::Header {
            return self.header_fault(header_place(self.string), fault.place);
        }
        Ok(())
    }
}

// The steps of reading a string, as far as they were taken.
pub fn steps<'a>(
    heap: Global,
    s: &'a [u8],
    read: Result<Pdu<'a>, Fault>,
) -> Result<Vec<Step<'a>>, AllocError>
    ensures { IfOk result (λ v. seen_steps v.items ≡ steps_of s.now (seen read.entry)) }
{
    let mut trace = Trace {
        string: s,
        steps: Vec::new(heap),
    };
    match read {
        Ok(pdu) => {
            trace.first_octet()?;
            trace.pdu(pdu)?;
        }
        Err(fault) => trace.fault(fault)?,
    }
    Ok(trace.steps)
}

fn show_first<W: fmt::Write>(first: u8, f: &mut fmt::Formatter<W>) -> fmt::Result {
    let version = first / 32;
    let n = first / 2 % 16;
    write!(f, "at 0: version {version}, type {n} (")?;
    match Kind::try_from(first / 2) {
        Ok(kind) => write!(f, "{kind}")?,
        Err(_) => write!(f, "unknown")?,
    }
    let more = if first % 2 == 1 { "yes" } else { "no" };
    write!(f, "), more to send: {more}")
}

fn show_field<W: fmt::Write>(field: &[u8], f: &mut fmt::Formatter<W>) -> fmt::Result {
    let [head, ..] = field else {
        return Ok(());
    };
    let Some(address) = Address::in_field(field) else {
        return Ok(());
    };
    let n = *head / 32;
    let name = address.kind_name();
    let length = *head % 32;
    write!(
        f,
        "at 1: address type {n} ({name}), length {length}: {address}"
    )
}

fn show_element<W: fmt::Write>(
    place: usize,
    kind: u8,
    octets: &[u8],
    f: &mut fmt::Formatter<W>,
) -> fmt::Result {
    let length = octets.len();
    write!(f, "at {place}: element {kind:02X}, length {length}: ")?;
    match (kind, octets) {
        (PORTS, [a, b, c, d]) => {
            let Ports { to, from } = Ports::from([*a, *b, *c, *d]);
            write!(f, "to port {to}, from port {from}")
        }
        (SEGMENT, [reference, count, sequence]) => {
            write!(
                f,
                "reference {reference}, count {count}, sequence {sequence}"
            )
        }
        _ => write!(f, "skipped"),
    }
}

impl fmt::Display for Step<'_> {
    fn fmt<W: fmt::Write>(&self, f: &mut fmt::Formatter<W>) -> fmt::Result {
        match self {
            Step::First(first) => show_first(*first, f),
            Step::Field(field) => show_field(field, f),
            Step::HeaderLength { place, length } => write!(f, "at {place}: header length {length}"),
            Step::Element {
                place,
                kind,
                octets,
            } => show_element(*place, *kind, octets, f),
            Step::User { place, count } => write!(f, "at {place}: user octets: {count}"),
            // Two arms: the codes are of two types.
            Step::ErrorTold(code) => {
                let n = code.number();
                write!(f, "at 1: code {n} ({code})")
            }
            Step::Released(code) => {
                let n = code.number();
                write!(f, "at 1: code {n} ({code})")
            }
        }
    }
}
