ghost use Rattle.coded.specs.Coded.{meaning_of};
ghost use Rattle.coded.specs.Piles.{figured_above};

use crate::pile::Coded;
use bearer::Bearer;
use bearer::code::Code;
use bearer::heard::Garbled;
use bearer::side::{Highest, Side, Standing};
use coding::Coding;
use terms::refusal::Refusal;
use terms::stop::Stop;

impl<B: Bearer, C: Coding> Bearer for Coded<B, C> {
    ghost meaning = { meaning_of B.Bearer C.Coding };

    ghost figured = { λ b.
        figured_above (C.Coding.lawful b.coding) (B.Bearer.meaning b.below) (B.Bearer.figured b.below) };

    fn open(&mut self, side: Side, code: &[u8], octets: &[u8]) -> Result<(), Refusal> {
        self.told().ask_open(side, code, octets)?;
        let mut string = [0u8; 160];
        let string = self.encoded(octets, &mut string);
        self.below.open(side, code, string)
    }

    fn give(&mut self, side: Side, octets: &[u8]) -> Result<(), Refusal> {
        self.told().ask_give(side, octets)?;
        let mut string = [0u8; 160];
        let string = self.encoded(octets, &mut string);
        self.below.give(side, string)
    }

    fn take(&mut self, side: Side, place: &mut [u8; 160]) -> Result<usize, Stop> {
        // Not `Octets`: a bearer copies into the array of its caller.
        let mut string = [0u8; 160];
        let n = self.below.take(side, &mut string)?;
        Ok(self.decoded(&string[..n], place)?)
    }

    fn close(&mut self, side: Side) -> Result<(), Refusal> {
        self.below.close(side)
    }

    fn lose(&mut self) -> Result<(), Refusal> {
        self.below.lose()
    }

    fn is_open(&self) -> bool {
        self.below.is_open()
    }

    fn number(&self) -> u32 {
        self.below.number()
    }

    fn standing(&self) -> Standing {
        self.below.standing()
    }

    fn code(&self) -> Code {
        self.below.code()
    }

    fn under_way(&self, place: &mut [u8; 160]) -> Option<Result<usize, Garbled>> {
        let mut string = [0u8; 160];
        // Not `and_then`: no contract tells what a closure leaves in `place`.
        match self.below.under_way(&mut string)? {
            Ok(n) => Some(self.decoded(&string[..n], place)),
            Err(garbled) => Some(Err(garbled)),
        }
    }

    fn longest(&self) -> usize {
        self.coding.most(self.below.longest())
    }

    fn highest(&self) -> Highest {
        Highest::Eight
    }
}
