ghost use Rattle.direct.specs.Form.{held as held_on, written as standing, read_as as read_back};
ghost use Rattle.std.proofs.Common.{rules};

use crate::line::DirectLine;
use lines::line::Line;
use lines::place::Place;
use lines::ussd::{ROOM, Ussd};
use terms::refusal::Refusal;

impl Line for DirectLine {
    ghost held = { held_on };

    ghost room = { 160 };

    ghost written = { standing };

    ghost read_as = { read_back };

    ghost lawful = { Prim.search rules };

    fn write(&mut self, _place: Place, string: &[u8]) -> Result<(), Refusal> {
        self.load(string)
    }

    fn holds(&self, count: usize) -> bool {
        count <= ROOM
    }

    fn load(&mut self, raw: &[u8]) -> Result<(), Refusal> {
        self.string = Ussd::of(raw).ok_or(Refusal::RawTooLong)?;
        Ok(())
    }

    fn read(&self, _place: Place) -> Option<Ussd> {
        Some(self.string)
    }

    fn raw(&self) -> &[u8] {
        self.string.as_slice()
    }
}
