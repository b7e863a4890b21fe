ghost use Rattle.std.specs.Prelude.{◌≡◌};
ghost use Rattle.bearer.specs.Meaning.{open_after};
ghost use Rattle.session.specs.Sessions.{opens, take_in, place_in, take_left};

use crate::shared::sorted;
use crate::state::{Heard, Listening, Speaking};
use bearer::Bearer;
use bearer::side::Side;
use terms::refusal::Refusal;

impl Listening {
    // Begins a session by opening a dialogue.
    pub fn open<B: Bearer>(
        b: &mut B,
        side: Side,
        code: &[u8],
        octets: &[u8],
    ) -> Result<Listening, Refusal>
        ensures answer { result ≡ opens side code.now octets.now (B.meaning b.old) }
        ensures after { B.meaning b.new ≡ open_after side code.now octets.now (B.meaning b.old) }
    {
        b.open(side, code, octets)?;
        Ok(Listening::new(b.number(), side))
    }

    // Takes the string that waits; of a garbled one too the turn is then here.
    pub fn take<B: Bearer>(
        self,
        b: &mut B,
        place: &mut [u8; 160],
    ) -> Result<(Heard, Speaking), (Refusal, Listening)>
        ensures answer { result ≡ take_in self (B.meaning b.old) }
        ensures place { place.new ≡ place_in self place.old (B.meaning b.old) }
        ensures after { B.meaning b.new ≡ take_left self (B.meaning b.old) }
    {
        if b.number() != self.number {
            return Err((Refusal::NotOpen, self));
        }
        // No `?`: the refusal hands the session back.
        match sorted(b.take(self.side, place)) {
            Ok(heard) => Ok((heard, self.turned())),
            Err(why) => Err((why, self)),
        }
    }
}
