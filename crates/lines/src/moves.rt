ghost use Rattle.std.specs.Prelude.{◌≡◌, ◌+◌, ◌<◌};
ghost use Rattle.bearer.specs.Side.{other};
ghost use Rattle.bearer.specs.Meaning.{last_number, with_dialogue, open_with, turn, closed, code_octets};
ghost use Rattle.lines.specs.State.{meaning_of, in_phase};

use crate::line::Line;
use crate::state::{Carrier, Phase};
use bearer::code::Code;
use bearer::side::Side;

// How a dialogue moves on, whatever stands on the line.
impl<L: Line> Carrier<L> {
    // The next dialogue: a side opens it, for the other.
    pub(crate) fn opens_from(&mut self, side: Side)
        requires { self.old.number < last_number }
        ensures { self.new ≡ in_phase self.old (Phase.Opening (other side)) (self.old.number + 1) }
    {
        self.number += 1;
        self.phase = Phase::Opening(side.other());
    }

    // A side gives, for the other.
    pub(crate) fn gives_from(&mut self, side: Side)
        ensures { self.new ≡ in_phase self.old (Phase.UnderWay (other side)) self.old.number }
    {
        self.phase = Phase::UnderWay(side.other());
    }

    // A side has taken, and has the turn.
    pub(crate) fn turns_to(&mut self, side: Side, code: Code)
        ensures { meaning_of L.Line self.new ≡ with_dialogue (meaning_of L.Line self.old) self.old.number (open_with (code_octets code) (turn side)) }
    {
        self.code = code;
        self.phase = Phase::Turn(side);
    }

    pub(crate) fn ends(&mut self)
        ensures { meaning_of L.Line self.new ≡ with_dialogue (meaning_of L.Line self.old) self.old.number closed }
    {
        self.phase = Phase::Closed;
    }
}
