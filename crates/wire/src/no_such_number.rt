use std::error::Error;
use std::fmt;

// A number that names nothing where it stands: no type of PDU, of address or of number, no code.
#[derive(Clone, Copy, PartialEq, Eq, Debug)]
pub struct NoSuchNumber;

impl fmt::Display for NoSuchNumber {
    ghost use Rattle.std.specs.Prelude.{Some, codes};

    ghost output = { λ _. Some (codes "no such number") };

    fn fmt<W: fmt::Write>(&self, f: &mut fmt::Formatter<W>) -> fmt::Result {
        f.write_str("no such number")
    }
}

impl Error for NoSuchNumber {}
