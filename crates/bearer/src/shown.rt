ghost use Rattle.std.specs.Prelude.{◌≡◌, ◌≤◌, IfOk};
ghost use Rattle.bearer.specs.Meaning.{Meaning, Figured, is_open, stand_of, tells, code_of, string_of, open_answer, open_after, give_answer, give_after, take_answer, take_place, take_after, close_answer, close_after, text_of, over, code_octets};

use crate::code::Code;
use crate::heard::Garbled;
use crate::side::{Highest, Side, Standing};
use crate::told::Told;
use terms::refusal::Refusal;
use terms::stop::Stop;

// A bearer carries one string at a time inside one dialogue at a time. Its meaning is all there is to know of it: a call is
// refused exactly by the first no among its questions, and then alters nothing; nothing else alters the meaning.
pub trait Bearer {
    ghost meaning: { Self → Meaning };

    // Begins a dialogue: the number rises by one, and the octets are under way to the other side. Side, code and octets stay three
    // arguments: a struct of them would be made for this call and taken apart by it.
    fn open(&mut self, side: Side, code: &[u8], octets: &[u8]) -> Result<(), Refusal>
        ensures answer { result ≡ open_answer side code.now octets.now (meaning self.old) }
        ensures after { meaning self.new ≡ open_after side code.now octets.now (meaning self.old) };

    // Sends octets to the other side, in one's turn.
    fn give(&mut self, side: Side, octets: &[u8]) -> Result<(), Refusal>
        ensures answer { result ≡ give_answer side octets.now (meaning self.old) }
        ensures after { meaning self.new ≡ give_after side octets.now (meaning self.old) };

    // Takes the string that waits for a side; the turn is then with the taker, of a garbled string too.
    // The place stays a buffer of the caller's, since what stands in it beyond the string is promised to be kept.
    fn take(&mut self, side: Side, place: &mut [u8; 160]) -> Result<usize, Stop>
        ensures answer { result ≡ take_answer side (meaning self.old) }
        ensures within { IfOk result (λ n. n ≤ 152) }
        ensures place { place.new ≡ take_place side place.old (meaning self.old) }
        ensures after { meaning self.new ≡ take_after side (meaning self.old) };

    // Ends the dialogue, by a side or because the radio is gone; a string under way is gone.
    fn close(&mut self, side: Side) -> Result<(), Refusal>
        ensures answer { result ≡ close_answer (meaning self.old) }
        ensures after { meaning self.new ≡ close_after (meaning self.old) };

    fn lose(&mut self) -> Result<(), Refusal>
        ensures answer { result ≡ close_answer (meaning self.old) }
        ensures after { meaning self.new ≡ close_after (meaning self.old) };

    // Questions, which alter nothing.
    fn is_open(&self) -> bool
        ensures { result ≡ is_open (meaning self.now) };

    fn number(&self) -> u32
        ensures { result ≡ (meaning self.now).number };

    fn standing(&self) -> Standing
        ensures { result ≡ stand_of (meaning self.now) };

    fn code(&self) -> Code
        ensures { code_octets result ≡ code_of (meaning self.now) };

    // The string under way, whoever it is for: its octets are copied. The place stays a buffer of the caller's, as in `take`.
    fn under_way(&self, place: &mut [u8; 160]) -> Option<Result<usize, Garbled>>
        ensures answer { result ≡ text_of (string_of (meaning self.now)) }
        ensures place { place.new ≡ over (string_of (meaning self.now)) place.old };

    fn longest(&self) -> usize
        ensures { result ≡ (meaning self.now).longest };

    fn highest(&self) -> Highest
        ensures { result ≡ (meaning self.now).highest };

    // All that the questions of a call are put to.
    fn told(&self) -> Told
        ensures { result ≡ tells (meaning self.now) }
    {
        Told {
            is_open: self.is_open(),
            standing: self.standing(),
            number: self.number(),
            longest: self.longest(),
            highest: self.highest(),
        }
    }

    ghost figured: { (b : Self) → Figured (meaning b) };
}
