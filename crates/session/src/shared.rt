ghost use Rattle.std.specs.Prelude.{◌≡◌};
ghost use Rattle.session.specs.Sessions.{taken, session_in, in_turn, close_in, close_left};

use crate::state::{Heard, Session};
use bearer::Bearer;
use bearer::side::Side;
use std::marker::PhantomData;
use terms::refusal::Refusal;
use terms::stop::Stop;

// What a session does whoever has the turn. A refusal hands the session back, so its calls match where a `?` would lose it, and
// each tests the number itself, since each hands on another type.
impl<T> Session<T> {
    pub(crate) fn new(number: u32, side: Side) -> Session<T>
        ensures { result ≡ session_in number side }
    {
        Session {
            number,
            side,
            turn: PhantomData,
        }
    }

    pub(crate) fn turned<U>(self) -> Session<U>
        ensures { result ≡ in_turn self }
    {
        let Session {
            number,
            side,
            turn: _,
        } = self;
        Session::new(number, side)
    }

    // The dialogue's number.
    pub fn number(&self) -> u32
        ensures { result ≡ self.now.number }
    {
        self.number
    }

    pub fn side(&self) -> Side
        ensures { result ≡ self.now.side }
    {
        self.side
    }

    // Spends a session whose dialogue is gone. No bearer is touched.
    pub fn abandon(self) {
        let Session {
            number: _,
            side: _,
            turn: _,
        } = self;
    }

    // Ends the session's dialogue.
    pub fn close<B: Bearer>(self, b: &mut B) -> Result<(), (Refusal, Session<T>)>
        ensures answer { result ≡ close_in self (B.meaning b.old) }
        ensures after { B.meaning b.new ≡ close_left self (B.meaning b.old) }
    {
        if b.number() != self.number {
            return Err((Refusal::NotOpen, self));
        }
        match b.close(self.side) {
            Ok(()) => {
                self.abandon();
                Ok(())
            }
            Err(why) => Err((why, self)),
        }
    }
}

// A garbled string was taken too; only a refusal leaves it where it is.
// Not a `From`: both types are of std and terms, and a `?` would turn what was heard into an error.
pub(crate) fn sorted(answer: Result<usize, Stop>) -> Result<Heard, Refusal>
    ensures { result ≡ taken answer }
{
    match answer {
        Ok(n) => Ok(Ok(n)),
        Err(Stop::Faulty(fault)) => Ok(Err(fault)),
        Err(Stop::Refused(why)) => Err(why),
    }
}
