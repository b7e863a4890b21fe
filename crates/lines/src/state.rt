use bearer::code::Code;
use bearer::side::{Highest, Side};

// Where a dialogue is. `Opening` and `UnderWay` tell to whom the string on the line goes.
#[derive(Clone, Copy, PartialEq, Eq, Debug)]
pub enum Phase {
    Closed,
    Turn(Side),
    Opening(Side),
    UnderWay(Side),
}

// A bearer that holds its string on a line. `code` is the service code once the opening string was taken.
#[derive(Drop)]
pub struct Carrier<L> {
    pub(crate) line: L,
    pub(crate) code: Code,
    pub(crate) phase: Phase,
    pub(crate) number: u32,
    pub(crate) highest: Highest,
}
