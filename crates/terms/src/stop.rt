ghost use Rattle.std.specs.Prelude.{◌≡◌};
ghost use Rattle.terms.specs.Stop.{refused_by, fault_by};

use crate::fault::Fault;
use crate::refusal::Refusal;

// Why a call that takes or decodes a string did not give octets: it was refused and altered nothing, or the string is faulty.
#[derive(Clone, Copy, PartialEq, Eq, Debug)]
pub enum Stop {
    Refused(Refusal),
    Faulty(Fault),
}

impl From<Refusal> for Stop {
    ghost from_gives = { λ f r. r ≡ refused_by f };

    fn from(f: Refusal) -> Stop {
        Stop::Refused(f)
    }
}

impl From<Fault> for Stop {
    ghost from_gives = { λ f r. r ≡ fault_by f };

    fn from(f: Fault) -> Stop {
        Stop::Faulty(f)
    }
}
