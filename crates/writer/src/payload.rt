use wire::header::{Ports, Segment};

// What a Data or a Data_Long carries. `more` is the flag MTS, more to send.
#[derive(Clone, Copy)]
pub struct Payload<'a> {
    pub more: bool,
    pub ports: Ports,
    pub segment: Option<Segment>,
    pub user: &'a [u8],
}
