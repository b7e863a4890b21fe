use terms::octets::Octets;

// How many octets a line has room for.
pub(crate) const ROOM: usize = 640;

// One line of a gateway.
#[derive(Clone, Copy, Default)]
pub struct Row {
    pub(crate) octets: Octets<ROOM>,
}
