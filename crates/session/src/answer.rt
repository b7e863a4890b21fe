ghost use Rattle.std.specs.Prelude.{◌≡◌};
ghost use Rattle.bearer.specs.Meaning.{take_place};
ghost use Rattle.session.specs.Answer.{answer_once, once_left};

use crate::state::{Heard, Listening, Speaking};
use bearer::Bearer;
use bearer::side::Side;
use terms::refusal::Refusal;

// Takes the string that waits for a side and gives one back. Where the bearer does not carry that one, the dialogue is closed.
pub fn answer_once<B: Bearer>(
    b: &mut B,
    side: Side,
    place: &mut [u8; 160],
    octets: &[u8],
) -> Result<(Heard, Listening), Refusal>
    ensures answer { result ≡ answer_once side octets.now (B.meaning b.old) }
    ensures place { place.new ≡ take_place side place.old (B.meaning b.old) }
    ensures after { B.meaning b.new ≡ once_left side octets.now (B.meaning b.old) }
{
    let (heard, speaking) = Speaking::begin(b, side, place)?;
    match speaking.give(b, octets) {
        Ok(listening) => Ok((heard, listening)),
        Err((why, speaking)) => {
            match speaking.close(b) {
                Ok(()) => {}
                Err((_, speaking)) => speaking.abandon(),
            }
            Err(why)
        }
    }
}
