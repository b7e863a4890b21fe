use crate::call::{CALLS, Call};
use crate::look::seen;
use crate::state::{STATES, State};
use lines::line::Line;
use std::{fmt, io};
use terms::stop::Stop;

// What a call answers, in a row.
#[derive(Clone, Copy)]
struct Answer(Result<usize, Stop>);

impl fmt::Display for Answer {
    fn fmt<W: fmt::Write>(&self, f: &mut fmt::Formatter<W>) -> fmt::Result {
        match self.0 {
            Ok(n) => write!(f, "accepted {n}"),
            Err(Stop::Faulty(fault)) => write!(f, "fault {}", fault.cause.number()),
            Err(Stop::Refused(no)) => write!(f, "refused {}", no.number()),
        }
    }
}

// One row: a call in a state, what it answers, and whether bearer, line and buffer are as they were.
fn row<L: Line + Default + Drop>(
    rt: &(impl Print + AllocGlobal),
    state: State,
    name: &str,
    call: Call,
) -> io::Result<()> {
    let mut b = state.bearer::<L>();
    let before = seen(rt.alloc(), &b)?;
    let mut place = [0xEE; 160];
    let answer = Answer(call.make(&mut b, &mut place));
    let kept = before == seen(rt.alloc(), &b)? && place == [0xEE; 160];
    let left = if kept { "kept" } else { "altered" };
    println!(rt; "{}, {name}: {answer}, {left}", state.name)
}

// Every call in every state, over a bearer with a kind of line.
pub(crate) fn table<L: Line + Default + Drop>(
    rt: &(impl Print + AllocGlobal),
    bearer: &str,
) -> io::Result<()> {
    println!(rt; "{bearer}")?;
    for state in &STATES {
        for (name, call) in &CALLS {
            row::<L>(rt, *state, name, *call)?;
        }
    }
    Ok(())
}
