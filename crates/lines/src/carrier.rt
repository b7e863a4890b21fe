ghost use Rattle.std.specs.Prelude.{◌≡◌, ◌+◌, ◌<◌, ◌≤◌, true, length, Some};
ghost use Rattle.std.specs.Option.{option_map};
ghost use Rattle.terms.specs.Octets.{octets_of};
ghost use Rattle.bearer.specs.Meaning.{last_number, text_in, text_of, over as laid_over, string_in, code_in, stand_of, turn_is, lawful_code, low, opens_next, gives_next};
ghost use Rattle.bearer.specs.Side.{highest_octet, other};
ghost use Rattle.lines.specs.State.{heard_of, opens, place_in, on_line, meaning_of, closed_at, stands_as};
ghost use Rattle.lines.specs.Opened.{code_told, count_told};

use crate::frame::opening;
use crate::hear::{Opened, hear, hear_opening};
use crate::line::Line;
use crate::place::Place;
use crate::state::{Carrier, Phase};
use crate::ussd::Ussd;
use bearer::code::Code;
use bearer::heard::Garbled;
use bearer::side::{Highest, Side};

impl<L: Line> Carrier<L> {
    // New, it is closed; `latest` is the number of the latest dialogue.
    pub fn new(line: L, latest: u32, highest: Highest) -> Carrier<L>
        ensures { meaning_of L.Line result ≡ closed_at latest highest }
    {
        Carrier {
            line,
            code: Code::new(),
            phase: Phase::Closed,
            number: latest,
            highest,
        }
    }

    // New, on a line as `Default` makes it; it is closed.
    pub fn closed(latest: u32, highest: Highest) -> Carrier<L>
    where
        L: Default,
        ensures { meaning_of L.Line result ≡ closed_at latest highest }
    {
        Carrier::new(L::default(), latest, highest)
    }

    fn place(&self) -> Place
        ensures { result ≡ place_in self.now.phase self.now.number }
    {
        let (opening, from) = match self.phase {
            Phase::Opening(to) => (true, to.other()),
            Phase::UnderWay(to) => (false, to.other()),
            _ => (false, Side::Mobile),
        };
        Place {
            opening,
            from,
            number: self.number,
        }
    }

    fn string(&self) -> Option<Ussd>
        ensures { option_map octets_of result ≡ on_line L.Line self.now }
    {
        self.line.read(self.place())
    }

    // What is heard of a string that stands bare.
    pub(crate) fn bare(&self, out: &mut [u8; 160]) -> Result<usize, Garbled>
        ensures answer { result ≡ text_in (heard_of (highest_octet self.now.highest) (on_line L.Line self.now)) }
        ensures copied { out.new ≡ laid_over (Some (heard_of (highest_octet self.now.highest) (on_line L.Line self.now))) out.old }
    {
        let string = self.string().ok_or(Garbled)?;
        hear(string.as_slice(), self.highest.octet(), out)
    }

    // What a mobile's opening string tells.
    pub(crate) fn opened(&self, out: &mut [u8; 160]) -> Result<Opened, Garbled>
        ensures code { code_told result ≡ code_in (opens (highest_octet self.now.highest) (on_line L.Line self.now)) }
        ensures answer { Some (count_told result) ≡ text_of (string_in (opens (highest_octet self.now.highest) (on_line L.Line self.now))) }
        ensures copied { out.new ≡ laid_over (string_in (opens (highest_octet self.now.highest) (on_line L.Line self.now))) out.old }
    {
        let string = self.string().ok_or(Garbled)?;
        hear_opening(string.as_slice(), self.highest.octet(), out)
    }

    // The opening string is under way to the other side, in the next dialogue.
    pub(crate) fn put_opening(&mut self, side: Side, code: &[u8], octets: &[u8])
        requires lawful { lawful_code side code.now ≡ true }
        requires short { length octets.now ≤ 152 }
        requires low { low (highest_octet self.old.highest) octets.now ≡ true }
        requires next { self.old.number < last_number }
        ensures after { meaning_of L.Line self.new ≡ opens_next side code.now octets.now (meaning_of L.Line self.old) }
        ensures raw { L.Line.held self.new.line ≡ L.Line.written (place_in (Phase.Opening (other side)) (self.old.number + 1)) (stands_as side code.now octets.now) }
    {
        self.opens_from(side);
        let place = self.place();
        let string = opening(side, code, octets);
        self.line.write(place, string.as_slice()).unwrap();
    }

    // A later string is under way to the other side.
    pub(crate) fn put_later(&mut self, side: Side, octets: &[u8])
        requires turn { turn_is side (stand_of (meaning_of L.Line self.old)) ≡ true }
        requires short { length octets.now ≤ 152 }
        requires low { low (highest_octet self.old.highest) octets.now ≡ true }
        ensures after { meaning_of L.Line self.new ≡ gives_next side octets.now (meaning_of L.Line self.old) }
        ensures raw { L.Line.held self.new.line ≡ L.Line.written (place_in (Phase.UnderWay (other side)) self.old.number) octets.now }
    {
        self.gives_from(side);
        let place = self.place();
        self.line.write(place, octets).unwrap();
    }
}
