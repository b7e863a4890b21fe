use crate::cause::Cause;
use std::fmt;

// The layer that found a fault.
#[derive(Clone, Copy, PartialEq, Eq, Debug)]
pub enum Layer {
    Bearer,
    Coding,
    Pdu,
    Header,
    Joining,
}

impl fmt::Display for Layer {
    fn fmt<W: fmt::Write>(&self, f: &mut fmt::Formatter<W>) -> fmt::Result {
        let name = match self {
            Layer::Bearer => "bearer",
            Layer::Coding => "coding",
            Layer::Pdu => "pdu",
            Layer::Header => "header",
            Layer::Joining => "joining",
        };
        write!(f, "{name}")
    }
}

// What is wrong with a string, the offset of the first offending octet, and who found it.
#[derive(Clone, Copy, PartialEq, Eq, Debug)]
pub struct Fault {
    pub cause: Cause,
    pub place: usize,
    pub layer: Layer,
}

impl fmt::Display for Fault {
    fn fmt<W: fmt::Write>(&self, f: &mut fmt::Formatter<W>) -> fmt::Result {
        let cause = self.cause;
        let place = self.place;
        let layer = self.layer;
        write!(f, "{cause} (octet {place}, {layer})")
    }
}
