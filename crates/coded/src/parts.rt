ghost use Rattle.std.specs.Prelude.{◌≡◌, ℕ, ◌≤◌, List, length, take, Some};
ghost use Rattle.bearer.specs.Meaning.{text_in, over};
ghost use Rattle.coded.specs.Coded.{meaning_of, stands_for};

use crate::pile::Coded;
use bearer::Bearer;
use bearer::heard::Garbled;
use coding::Coding;

impl<B: Bearer, C: Coding> Coded<B, C> {
    // Piles a coding on a bearer, whatever stands on it; there is nothing to be refused.
    pub fn new(below: B, coding: C) -> Coded<B, C>
        ensures below { result.below ≡ below }
        ensures coding { result.coding ≡ coding }
    {
        Coded { below, coding }
    }

    // Takes the pile apart: the bearer below as it stands, and the coding.
    pub fn into_parts(self) -> (B, C)
        ensures below { result.0 ≡ self.below }
        ensures coding { result.1 ≡ self.coding }
    {
        (self.below, self.coding)
    }

    // The encoding of octets that are no more than the longest string, written into an array.
    pub(crate) fn encoded<'a>(&self, octets: &[u8], string: &'a mut [u8; 160]) -> &'a [u8]
        requires { length octets.now ≤ (meaning_of B.Bearer C.Coding self.now).longest }
        ensures { result.now ≡ C.Coding.encoded self.now.coding octets.now }
    {
        let n = self.coding.encode(octets, &mut string[..]).unwrap();
        &string[..n]
    }

    // What a string from below stands for.
    pub(crate) fn decoded(&self, text: &[u8], place: &mut [u8; 160]) -> Result<usize, Garbled>
        requires { length text.now ≤ 160 }
        ensures answer { result ≡ text_in (stands_for C.Coding self.now text.now) }
        ensures place { place.new ≡ over (Some (stands_for C.Coding self.now text.now)) place.old }
    {
        self.coding
            .decode(text, &mut place[..])
            .map_err(|_| Garbled)
    }
}
