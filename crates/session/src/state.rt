use bearer::side::Side;
use std::marker::PhantomData;
use terms::fault::Fault;

// The side has the turn: it can give, and not take.
pub struct Speaks;

// The side waits for a string: it can take, and not give.
pub struct Listens;

// A side in the dialogue of a number, `T` telling what it can do there. A session is neither `Drop` nor `Copy`: it is spent
// by a call, by `close` or by `abandon`.
pub struct Session<T> {
    pub(crate) number: u32,
    pub(crate) side: Side,
    pub(crate) turn: PhantomData<T>,
}

pub type Speaking = Session<Speaks>;

pub type Listening = Session<Listens>;

// How many octets were taken, or the fault of a garbled string.
pub type Heard = Result<usize, Fault>;
