ghost use Rattle.std.specs.Prelude.{◌≡◌, true, length, Ok};
ghost use Rattle.terms.specs.Question.{asked};
ghost use Rattle.lines.specs.State.{meaning_of, load_questions, loaded, load_after, load_raw};

use crate::line::Line;
use crate::state::{Carrier, Phase};
use bearer::Bearer;
use bearer::side::Side;
use terms::refusal::Refusal;

impl<L: Line> Carrier<L> {
    fn ask_load(&self, side: Side, raw: &[u8]) -> Result<(), Refusal>
        ensures { result ≡ asked (load_questions L.Line.room side raw.now (meaning_of L.Line self.now)) }
    {
        if !self.line.holds(raw.len()) {
            return Err(Refusal::RawTooLong);
        }
        if self.is_open() {
            if self.standing().is_turn(side) {
                Ok(())
            } else {
                Err(Refusal::NotYourTurn)
            }
        } else if self.number < u32::MAX {
            Ok(())
        } else {
            Err(Refusal::NumbersSpent)
        }
    }

    fn put_raw(&mut self, side: Side, raw: &[u8])
        requires { asked (load_questions L.Line.room side raw.now (meaning_of L.Line self.old)) ≡ Ok tt }
        ensures after { meaning_of L.Line self.new ≡ loaded L.Line.read_as side raw.now (meaning_of L.Line self.old) }
        ensures raw { L.Line.held self.new.line ≡ raw.now }
    {
        self.line.load(raw).unwrap();
        match self.phase {
            Phase::Closed => self.opens_from(side),
            _ => self.gives_from(side),
        }
    }

    // Brings a raw string in as a side's open, if closed, or give, if open. What it holds is told by reading the line.
    #[tactic(auto, using(terms::proofs::Questions::done_unless))]
    pub fn load(&mut self, side: Side, raw: &[u8]) -> Result<(), Refusal>
        ensures answer { result ≡ asked (load_questions L.Line.room side raw.now (meaning_of L.Line self.old)) }
        ensures after { meaning_of L.Line self.new ≡ load_after L.Line.room L.Line.read_as side raw.now (meaning_of L.Line self.old) }
        ensures raw { L.Line.held self.new.line ≡ load_raw L.Line.room side raw.now (meaning_of L.Line self.old) (L.Line.held self.old.line) }
    {
        self.ask_load(side, raw)?;
        self.put_raw(side, raw);
        Ok(())
    }

    // The octets on the line.
    pub fn raw(&self) -> &[u8]
        ensures { result.now ≡ L.Line.held self.now.line }
    {
        self.line.raw()
    }
}
