ghost use Rattle.lines.specs.State.{meaning_of, load_questions, loaded};

use crate::shown::Loads;
use bearer::side::Side;
use lines::line::Line;
use lines::state::Carrier;
use terms::refusal::Refusal;

impl<L: Line> Loads for Carrier<L> {
    ghost load_asks = { λ s side raw. load_questions L.Line.room side raw (meaning_of L.Line s) };

    ghost load_means = { λ s side raw. loaded L.Line.read_as side raw (meaning_of L.Line s) };

    fn load_raw(mut self, side: Side, raw: &[u8]) -> (Carrier<L>, Result<(), Refusal>) {
        let answer = self.load(side, raw);
        (self, answer)
    }
}
