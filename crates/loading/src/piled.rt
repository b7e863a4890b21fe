ghost use Rattle.coded.specs.Coded.{above};

use crate::shown::Loads;
use bearer::side::Side;
use coded::Coded;
use coding::Coding;
use terms::refusal::Refusal;

impl<B: Loads, C: Coding> Loads for Coded<B, C> {
    ghost load_asks = { λ s side raw. B.Loads.load_asks s.below side raw };

    ghost load_means = { λ s side raw. above (C.Coding.decoded s.coding) (C.Coding.size s.coding) (B.Loads.load_means s.below side raw) };

    fn load_raw(self, side: Side, raw: &[u8]) -> (Coded<B, C>, Result<(), Refusal>) {
        let (below, coding) = self.into_parts();
        let (below, answer) = below.load_raw(side, raw);
        (Coded::new(below, coding), answer)
    }
}
