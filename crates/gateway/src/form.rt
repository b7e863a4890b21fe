ghost use Rattle.std.specs.Prelude.{◌≡◌, ◌≤◌, length, Some, None, if◌then◌else◌};
ghost use Rattle.std.specs.Option.{option_map};
ghost use Rattle.terms.specs.Octets.{octets_of};
ghost use Rattle.hex_text.specs.Hex.{unhex};
ghost use Rattle.gateway.specs.Form.{written as standing, read_as as read_back, framed, middle, shortly, between};
ghost use Rattle.gateway.specs.Row.{held_in};
ghost use Rattle.gateway.specs.Form;
ghost use Rattle.gateway.specs.Forms.{between_back, between_only, between_short};

use crate::head::{head_of, tail};
use crate::row::{ROOM, Row};
use hex_text::text::{decode, encode};
use lines::line::Line;
use lines::place::Place;
use lines::ussd::{self, Ussd};
use terms::octets::Octets;
use terms::refusal::Refusal;

// What stands on a line between its front and its back.
fn inside<'a>(front: &[u8], back: &[u8], line: &'a [u8]) -> Option<&'a [u8]>
    ensures { option_map (λ x. x.now) result ≡ (if framed front.now back.now line.now then Some (middle front.now back.now line.now) else None) }
{
    line.strip_prefix(front)?.strip_suffix(back)
}

// The string that text in hexadecimal stands for, if it is such text and the string has at most 160 octets.
fn unhexed(text: &[u8]) -> Option<Ussd>
    ensures { option_map octets_of result ≡ shortly (unhex text.now) }
{
    let mut octets = [0; ussd::ROOM];
    let count = decode(text, &mut octets).ok()?;
    Ussd::of(&octets[..count])
}

fn string_in(front: &[u8], back: &[u8], line: &[u8]) -> Option<Ussd>
    ensures { option_map octets_of result ≡ between front.now back.now line.now }
{
    unhexed(inside(front, back, line)?)
}

// How a string of up to 160 octets stands at a place.
#[tactic(auto, using(hex_text::proofs::Hexes::hex_length))]
fn line_of(place: Place, string: &[u8]) -> Octets<ROOM>
    requires { length string.now ≤ 160 }
    ensures { octets_of result ≡ standing place string.now }
{
    let mut text = [0; 2 * ussd::ROOM];
    let count = encode(string, &mut text).unwrap();
    let mut line = Octets::of(head_of(place).as_slice()).unwrap();
    line.append(&text[..count]).unwrap();
    line.append(tail()).unwrap();
    line
}

// `holds`, `load` and `raw` are those of the direct line but for the room. What they share is `Octets`; a type between would only pass calls on.
impl Line for Row {
    ghost held = { held_in };

    ghost room = { 640 };

    ghost written = { standing };

    ghost read_as = { read_back };

    ghost lawful = { record { back = λ p xs l e. between_back (Form.head p) Form.tail xs l e; only = λ p ys xs w e. between_only (Form.head p) Form.tail ys xs e; short = λ p ys xs e. between_short (Form.head p) Form.tail ys xs e } };

    fn write(&mut self, place: Place, string: &[u8]) -> Result<(), Refusal> {
        if string.len() > ussd::ROOM {
            return Err(Refusal::RawTooLong);
        }
        self.octets = line_of(place, string);
        Ok(())
    }

    fn holds(&self, count: usize) -> bool {
        count <= ROOM
    }

    fn load(&mut self, raw: &[u8]) -> Result<(), Refusal> {
        self.octets = Octets::of(raw).ok_or(Refusal::RawTooLong)?;
        Ok(())
    }

    fn read(&self, place: Place) -> Option<Ussd> {
        string_in(head_of(place).as_slice(), tail(), self.raw())
    }

    fn raw(&self) -> &[u8] {
        self.octets.as_slice()
    }
}
