use crate::code::{ErrorCode, ReleaseCode};
use crate::header::{Ports, SegmentAt};

// Octets of a string, with their place in it.
#[derive(Clone, Copy, PartialEq, Eq, Debug)]
pub struct Part<'a> {
    pub place: usize,
    pub octets: &'a [u8],
}

// What a header and the octets behind it tell; `header` is the place of the header's length octet.
#[derive(Clone, Copy, PartialEq, Eq, Debug)]
pub struct Body<'a> {
    pub header: usize,
    pub ports: Ports,
    pub segment: Option<SegmentAt>,
    pub user: Part<'a>,
}

// A PDU as it was read. `more` is the flag MTS, more to send; the address is the whole address field.
#[derive(Clone, Copy, PartialEq, Eq, Debug)]
pub enum Pdu<'a> {
    Data {
        more: bool,
        body: Body<'a>,
    },
    DataLong {
        more: bool,
        address: Part<'a>,
        body: Body<'a>,
    },
    Ready,
    Error(ErrorCode),
    Release(ReleaseCode),
}
