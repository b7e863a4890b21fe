ghost use Rattle.std.specs.Prelude.{◌≡◌};
ghost use Rattle.terms.specs.Question.{asked};
ghost use Rattle.bearer.specs.Meaning.{fit_asks, open_asks, give_asks, take_asks, close_asks};

use crate::questions::{all_low, is_lawful};
use crate::side::{Highest, Side, Standing};
use terms::refusal::Refusal;

// What a bearer tells of itself that its calls' questions are put to. Each method asks a call's questions in their order, of `is_open` and
// of `standing`, whatever the one says of the other.
#[derive(Clone, Copy, PartialEq, Eq, Debug)]
pub struct Told {
    pub is_open: bool,
    pub standing: Standing,
    pub number: u32,
    pub longest: usize,
    pub highest: Highest,
}

impl Told {
    fn ask_fit(&self, octets: &[u8]) -> Result<(), Refusal>
        ensures { result ≡ asked (fit_asks self.now.longest self.now.highest octets.now) }
    {
        if octets.len() > self.longest {
            return Err(Refusal::StringTooLong);
        }
        if !all_low(octets, self.highest.octet()) {
            return Err(Refusal::OctetTooHigh);
        }
        Ok(())
    }

    pub fn ask_open(&self, side: Side, code: &[u8], octets: &[u8]) -> Result<(), Refusal>
        ensures { result ≡ asked (open_asks self.now.is_open self.now.longest self.now.highest self.now.number side code.now octets.now) }
    {
        if self.is_open {
            return Err(Refusal::AlreadyOpen);
        }
        if !is_lawful(side, code) {
            return Err(Refusal::OpeningCode);
        }
        self.ask_fit(octets)?;
        if self.number >= u32::MAX {
            return Err(Refusal::NumbersSpent);
        }
        Ok(())
    }

    pub fn ask_give(&self, side: Side, octets: &[u8]) -> Result<(), Refusal>
        ensures { result ≡ asked (give_asks self.now.is_open self.now.standing self.now.longest self.now.highest side octets.now) }
    {
        if !self.is_open {
            return Err(Refusal::NotOpen);
        }
        if !self.standing.is_turn(side) {
            return Err(Refusal::NotYourTurn);
        }
        self.ask_fit(octets)
    }

    pub fn ask_take(&self, side: Side) -> Result<(), Refusal>
        ensures { result ≡ asked (take_asks self.now.is_open self.now.standing side) }
    {
        if !self.is_open {
            return Err(Refusal::NotOpen);
        }
        if !self.standing.is_for(side) {
            return Err(Refusal::NothingForYou);
        }
        Ok(())
    }

    pub fn ask_close(&self) -> Result<(), Refusal>
        ensures { result ≡ asked (close_asks self.now.is_open) }
    {
        if self.is_open {
            Ok(())
        } else {
            Err(Refusal::NotOpen)
        }
    }
}
