ghost use Rattle.std.specs.Prelude.{◌≡◌};
ghost use Rattle.bearer.specs.Meaning.{take_place, take_after};
ghost use Rattle.session.specs.Sessions.{begins, give_in, give_left};

use crate::shared::sorted;
use crate::state::{Heard, Listening, Speaking};
use bearer::Bearer;
use bearer::side::Side;
use terms::refusal::Refusal;

impl Speaking {
    // Begins a session by taking the string that waits for a side.
    pub fn begin<B: Bearer>(
        b: &mut B,
        side: Side,
        place: &mut [u8; 160],
    ) -> Result<(Heard, Speaking), Refusal>
        ensures answer { result ≡ begins side (B.meaning b.old) }
        ensures place { place.new ≡ take_place side place.old (B.meaning b.old) }
        ensures after { B.meaning b.new ≡ take_after side (B.meaning b.old) }
    {
        let heard = sorted(b.take(side, place))?;
        Ok((heard, Speaking::new(b.number(), side)))
    }

    // Sends octets to the other side.
    pub fn give<B: Bearer>(self, b: &mut B, octets: &[u8]) -> Result<Listening, (Refusal, Speaking)>
        ensures answer { result ≡ give_in self octets.now (B.meaning b.old) }
        ensures after { B.meaning b.new ≡ give_left self octets.now (B.meaning b.old) }
    {
        if b.number() != self.number {
            return Err((Refusal::NotOpen, self));
        }
        // No `?`: the refusal hands the session back.
        match b.give(self.side, octets) {
            Ok(()) => Ok(self.turned()),
            Err(why) => Err((why, self)),
        }
    }
}
