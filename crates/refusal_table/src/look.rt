use bearer::Bearer;
use bearer::code::Code;
use bearer::heard::Garbled;
use bearer::told::Told;
use lines::line::Line;
use lines::state::Carrier;
use std::alloc::{AllocError, Global};

// All that a bearer tells of itself, and the line.
#[derive(PartialEq, Drop)]
pub(crate) struct Look {
    told: Told,
    code: Code,
    heard: Option<Result<usize, Garbled>>,
    octets: [u8; 160],
    raw: Vec<u8>,
}

pub(crate) fn seen<L: Line>(heap: Global, b: &Carrier<L>) -> Result<Look, AllocError> {
    let mut octets = [0xEE; 160];
    let heard = b.under_way(&mut octets);
    Ok(Look {
        told: b.told(),
        code: b.code(),
        heard,
        octets,
        raw: b.raw().to_vec(heap)?,
    })
}
