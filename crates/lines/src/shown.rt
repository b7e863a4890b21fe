ghost use Rattle.std.specs.Prelude.{◌≡◌, ◌≤◌};
ghost use Rattle.bearer.specs.Meaning.{open_answer, open_after, give_answer, give_after};
ghost use Rattle.lines.specs.State.{meaning_of, open_raw, give_raw};
ghost use Rattle.lines.specs.Figures;

use crate::line::{LONGEST, Line};
use crate::state::{Carrier, Phase};
use bearer::Bearer;
use bearer::code::Code;
use bearer::heard::{Garbled, heard_as};
use bearer::side::{Highest, Side, Standing};
use terms::refusal::Refusal;
use terms::stop::Stop;

impl<L: Line> Bearer for Carrier<L> {
    ghost meaning = { meaning_of L.Line };

    ghost figured = { λ b. Figures.figured L.Line.read_as L.Line.held b };

    #[tactic(auto, using(bearer::proofs::Calls::asks_open), unfolding(bearer::specs::Meaning::open_answer, bearer::specs::Meaning::open_after))]
    fn open(&mut self, side: Side, code: &[u8], octets: &[u8]) -> Result<(), Refusal>
        ensures answer { result ≡ open_answer side code.now octets.now (meaning_of L.Line self.old) }
        ensures after { meaning_of L.Line self.new ≡ open_after side code.now octets.now (meaning_of L.Line self.old) }
        ensures raw { L.Line.held self.new.line ≡ open_raw L.Line.written side code.now octets.now (meaning_of L.Line self.old) (L.Line.held self.old.line) }
    {
        self.told().ask_open(side, code, octets)?;
        self.put_opening(side, code, octets);
        Ok(())
    }

    #[tactic(auto, using(bearer::proofs::Calls::asks_give), unfolding(bearer::specs::Meaning::give_answer, bearer::specs::Meaning::give_after))]
    fn give(&mut self, side: Side, octets: &[u8]) -> Result<(), Refusal>
        ensures answer { result ≡ give_answer side octets.now (meaning_of L.Line self.old) }
        ensures after { meaning_of L.Line self.new ≡ give_after side octets.now (meaning_of L.Line self.old) }
        ensures raw { L.Line.held self.new.line ≡ give_raw L.Line.written side octets.now (meaning_of L.Line self.old) (L.Line.held self.old.line) }
    {
        self.told().ask_give(side, octets)?;
        self.put_later(side, octets);
        Ok(())
    }

    #[tactic(auto, using(bearer::proofs::Calls::asks_take), unfolding(bearer::specs::Meaning::take_answer, bearer::specs::Meaning::take_after, bearer::specs::Meaning::take_place))]
    fn take(&mut self, side: Side, place: &mut [u8; 160]) -> Result<usize, Stop> {
        self.told().ask_take(side)?;
        let code = self.code();
        let text = self.under_way(place);
        self.turns_to(side, code);
        heard_as(text)
    }

    fn close(&mut self, _side: Side) -> Result<(), Refusal> {
        self.lose()
    }

    #[tactic(auto, using(bearer::proofs::Calls::asks_close), unfolding(bearer::specs::Meaning::close_answer, bearer::specs::Meaning::close_after))]
    fn lose(&mut self) -> Result<(), Refusal> {
        self.told().ask_close()?;
        self.ends();
        Ok(())
    }

    fn is_open(&self) -> bool {
        self.phase != Phase::Closed
    }

    fn number(&self) -> u32 {
        self.number
    }

    fn standing(&self) -> Standing {
        match self.phase {
            Phase::Closed => Standing::Closed,
            Phase::Turn(side) => Standing::Turn(side),
            Phase::Opening(side) | Phase::UnderWay(side) => Standing::UnderWay(side),
        }
    }

    fn code(&self) -> Code {
        match self.phase {
            Phase::Closed | Phase::Opening(Side::Mobile) => Code::new(),
            Phase::Turn(_) | Phase::UnderWay(_) => self.code,
            Phase::Opening(Side::Network) => match self.opened(&mut [0; 160]) {
                Ok(opened) => opened.code,
                Err(Garbled) => Code::new(),
            },
        }
    }

    fn under_way(&self, place: &mut [u8; 160]) -> Option<Result<usize, Garbled>> {
        match self.phase {
            Phase::Closed | Phase::Turn(_) => None,
            Phase::UnderWay(_) | Phase::Opening(Side::Mobile) => Some(self.bare(place)),
            Phase::Opening(Side::Network) => Some(self.opened(place).map(|opened| opened.count)),
        }
    }

    fn longest(&self) -> usize {
        LONGEST
    }

    fn highest(&self) -> Highest {
        self.highest
    }
}
