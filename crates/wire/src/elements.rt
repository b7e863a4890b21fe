ghost use Rattle.std.specs.Prelude.{◌+◌, ◌^◌, ◌<◌, length};

use terms::cause::Cause;
use terms::fault::{Fault, Layer};

// An element of a header, with the place of its type octet. A type is any octet, so it is no enum.
#[derive(Clone, Copy)]
pub struct Element<'a> {
    pub place: usize,
    pub kind: u8,
    pub octets: &'a [u8],
    ghost within: { place + 2 + length octets.now < 2 ^ 64 },
}

// The element that begins at a place does not lie within its header.
#[derive(Clone, Copy, PartialEq, Eq, Debug)]
pub struct Overrun {
    pub place: usize,
}

impl From<Overrun> for Fault {
    ghost use Rattle.std.specs.Prelude.{◌≡◌};
    ghost use Rattle.terms.specs.declared.fault.Layer.TheVariants.{Header};
    ghost use Rattle.terms.specs.Cause.{fault_of};

    ghost from_gives = { λ overrun fault. fault ≡ fault_of 45 overrun.place Header };

    fn from(overrun: Overrun) -> Fault {
        Fault {
            cause: Cause::Header,
            place: overrun.place,
            layer: Layer::Header,
        }
    }
}

// The elements of a header one behind the other, up to one that overruns it.
#[derive(Clone, Copy)]
pub struct Elements<'a> {
    place: usize,
    rest: &'a [u8],
    ghost within: { place + length rest.now < 2 ^ 64 },
}

impl<'a> Elements<'a> {
    ghost use Rattle.std.specs.Prelude.{◌≡◌, ◌≤◌, Some, None, if◌then◌else◌, nat_le};
    ghost use Rattle.std.specs.Option.{option_map};
    ghost use Rattle.wire.specs.Elements.{elements_left, end_of};
    ghost use Rattle.wire.specs.Pdu.{header_size, header_elements};

    // Those of the header whose length octet stands at a place; none where it does not lie within the string.
    pub fn of(s: &'a [u8], at: usize) -> Option<Elements<'a>>
        ensures elements { option_map elements_left result ≡ (if nat_le (at + 1 + header_size at s.now) (length s.now) then Some (header_elements at s.now) else None) }
        ensures end { option_map end_of result ≡ (if nat_le (at + 1 + header_size at s.now) (length s.now) then Some (at + 1 + header_size at s.now) else None) }
    {
        let n = *s.get(at)? as usize;
        let end = at + 1 + n;
        if end > s.len() {
            return None;
        }
        Some(Elements {
            place: at + 1,
            rest: &s[at + 1..end],
        })
    }

    // The place behind those that are left; none is left behind one that overruns its header.
    pub fn end(&self) -> usize
        ensures { result ≡ end_of self.now }
    {
        self.place + self.rest.len()
    }
}

impl<'a> Iterator for Elements<'a> {
    ghost use Rattle.std.specs.Iterator.{YieldsFirstBy, item_count};
    ghost use Rattle.wire.specs.Elements.{elements_left, seen_element};

    type Item = Result<Element<'a>, Overrun>;

    ghost next_gives = { YieldsFirstBy seen_element elements_left };

    ghost remaining = { item_count elements_left };

    fn next(&mut self) -> Option<Result<Element<'a>, Overrun>> {
        let place = self.place;
        match self.rest {
            [] => None,
            [kind, len, tail @ ..] if *len as usize <= tail.len() => {
                let n = *len as usize;
                self.place = place + 2 + n;
                self.rest = &tail[n..];
                Some(Ok(Element {
                    place,
                    kind: *kind,
                    octets: &tail[..n],
                }))
            }
            _ => {
                self.rest = &[];
                Some(Err(Overrun { place }))
            }
        }
    }
}
