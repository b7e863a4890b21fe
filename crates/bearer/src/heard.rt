ghost use Rattle.std.specs.Prelude.{◌≡◌};
ghost use Rattle.bearer.specs.Meaning.{garbled_stop, heard_text};

use terms::cause::Cause;
use terms::fault::{Fault, Layer};
use terms::stop::Stop;

// The string under way is no string of octets within the figures. What is heard of a string is this, or how many octets were copied.
#[derive(Clone, Copy, PartialEq, Eq, Debug)]
pub struct Garbled;

impl From<Garbled> for Stop {
    ghost from_gives = { λ f r. r ≡ garbled_stop };

    fn from(_: Garbled) -> Stop {
        Stop::Faulty(Fault {
            cause: Cause::Garbled,
            place: 0,
            layer: Layer::Bearer,
        })
    }
}

// What a take answers of the string that was under way.
pub fn heard_as(text: Option<Result<usize, Garbled>>) -> Result<usize, Stop>
    ensures { result ≡ heard_text text }
{
    match text {
        None => Ok(0),
        Some(heard) => Ok(heard?),
    }
}
