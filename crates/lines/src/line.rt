ghost use Rattle.std.specs.Prelude.{◌≡◌, ℕ, List, length, Option, nat_le};
ghost use Rattle.std.specs.Option.{option_map};
ghost use Rattle.terms.specs.Question.{asked, unless};
ghost use Rattle.terms.specs.Octets.{octets_of};
ghost use Rattle.lines.specs.declared.place.Place.{Place};
ghost use Rattle.lines.specs.Line.{LawfulLine, room_for};

use crate::place::Place;
use crate::ussd::Ussd;
use terms::refusal::Refusal;

// The longest string that a carrier brings.
pub(crate) const LONGEST: usize = 152;

// A line on which a USSD string stands in some form.
pub trait Line {
    // the octets on the line, and how many it holds
    ghost held: { Self → List ℕ };

    ghost room: { ℕ };

    // how a string stands at a place, and the string that octets stand for there, if they have the form
    ghost written: { Place → List ℕ → List ℕ };

    ghost read_as: { Place → List ℕ → Option (List ℕ) };

    fn write(&mut self, place: Place, string: &[u8]) -> Result<(), Refusal>
        ensures answer { result ≡ asked (room_for 160 string.now) }
        ensures after { held self.new ≡ unless (room_for 160 string.now) (written place string.now) (held self.old) };

    // Whether the line holds so many octets.
    fn holds(&self, count: usize) -> bool
        ensures { result ≡ nat_le count room };

    // Octets put on the line as they are.
    fn load(&mut self, raw: &[u8]) -> Result<(), Refusal>
        ensures answer { result ≡ asked (room_for room raw.now) }
        ensures after { held self.new ≡ unless (room_for room raw.now) raw.now (held self.old) };

    // The string that stands on the line; none where the line has not the form.
    fn read(&self, place: Place) -> Option<Ussd>
        ensures { option_map octets_of result ≡ read_as place (held self.now) };

    fn raw(&self) -> &[u8]
        ensures { result.now ≡ held self.now };

    ghost lawful: { LawfulLine room written read_as };
}
