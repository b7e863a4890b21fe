ghost use Rattle.std.specs.Prelude.{◌≤◌};

use std::fmt;

// Up to `CAP` octets, held in the value itself: what a phone can hold without a heap. The kit's `ArrayVec` is not `Copy`, and
// codes and addresses are handed on by value. No `impl Model`: a `Copy` would have to give back
// from its view what stands behind the octets.
#[derive(Clone, Copy)]
pub struct Octets<const CAP: usize> {
    cells: [u8; CAP],
    len: usize,
    ghost within: { len ≤ CAP },
}

// There is no room left for what was to be added.
#[derive(Clone, Copy, PartialEq, Eq, Debug)]
pub struct Full;

impl fmt::Display for Full {
    ghost use Rattle.std.specs.Prelude.{Some, codes};

    ghost output = { λ _. Some (codes "there is no room left") };

    fn fmt<W: fmt::Write>(&self, f: &mut fmt::Formatter<W>) -> fmt::Result {
        f.write_str("there is no room left")
    }
}

impl<const CAP: usize> Octets<CAP> {
    ghost use Rattle.std.specs.Prelude.{◌≡◌, ◌+◌, ◌≤◌, ◌++◌, ◌∷◌, [], length, drop, Some, None, if◌then◌else◌, nat_le, IsOk, OnOk, OnErr, ◌↔◌};
    ghost use Rattle.std.specs.Option.{option_map};
    ghost use Rattle.terms.specs.Octets.{octets_of};

    // Of no octets.
    pub fn new() -> Octets<CAP>
        ensures octets { octets_of result ≡ [] }
        ensures len { length (octets_of result) ≡ 0 }
    {
        Octets {
            cells: [0; CAP],
            len: 0,
        }
    }

    // The given ones, where there is room for them.
    pub fn of(octets: &[u8]) -> Option<Octets<CAP>>
        ensures { option_map octets_of result ≡ (if nat_le (length octets.now) CAP then Some octets.now else None) }
    {
        let mut all = Octets::new();
        all.append(octets).ok()?;
        Some(all)
    }

    // Adds one behind the others, where there is room for it.
    pub fn push(&mut self, octet: u8) -> Result<(), Full>
        ensures fits { IsOk result ↔ (length (octets_of self.old) + 1 ≤ CAP) }
        ensures octets { OnOk result (octets_of self.new ≡ octets_of self.old ++ octet ∷ []) }
        ensures len { OnOk result (length (octets_of self.new) ≡ length (octets_of self.old) + 1) }
        ensures kept { OnErr result (self.new ≡ self.old) }
    {
        self.append(&[octet])
    }

    // Adds some behind the others, where there is room for all of them.
    pub fn append(&mut self, octets: &[u8]) -> Result<(), Full>
        ensures fits { IsOk result ↔ (length (octets_of self.old) + length octets.now ≤ CAP) }
        ensures octets { OnOk result (octets_of self.new ≡ octets_of self.old ++ octets.now) }
        ensures len { OnOk result (length (octets_of self.new) ≡ length (octets_of self.old) + length octets.now) }
        ensures kept { OnErr result (self.new ≡ self.old) }
    {
        if octets.len() > CAP - self.len {
            return Err(Full);
        }
        let end = self.len + octets.len();
        let cells = &mut self.cells[..];
        cells[self.len..end].copy_from_slice(octets);
        self.len = end;
        Ok(())
    }

    pub fn as_slice(&self) -> &[u8]
        ensures octets { result.now ≡ octets_of self.now }
        ensures within { length result.now ≤ CAP }
    {
        &self.cells[..self.len]
    }

    // Copies them to the front of a buffer, and tells how many there are.
    pub fn copy_to(&self, out: &mut [u8; CAP]) -> usize
        ensures count { result ≡ length (octets_of self.now) }
        ensures copied { out.new ≡ octets_of self.now ++ drop (length (octets_of self.now)) out.old }
    {
        let octets = self.as_slice();
        out[..octets.len()].copy_from_slice(octets);
        octets.len()
    }
}

impl<const CAP: usize> Default for Octets<CAP> {
    ghost use Rattle.std.specs.Prelude.{◌≡◌, []};
    ghost use Rattle.terms.specs.Octets.{octets_of};

    ghost is_default = { λ o. octets_of o ≡ [] };

    fn default() -> Octets<CAP> {
        Octets::new()
    }
}

// Two are equal that hold the same octets, whatever stands behind them.
impl<const CAP: usize> PartialEq for Octets<CAP> {
    ghost use Rattle.std.specs.Prelude.{nat_eq};
    ghost use Rattle.std.specs.Cmp.{on_per, partial_equiv_from_equiv};
    ghost use Rattle.std.specs.Cmp.Lexicographic.{pointwise, nat_list_eq_equiv};
    ghost use Rattle.terms.specs.Octets.{octets_of};

    ghost eq = { λ s t. pointwise nat_eq (octets_of s) (octets_of t) };

    ghost laws = { on_per octets_of (partial_equiv_from_equiv nat_list_eq_equiv) };

    fn eq(&self, other: &Octets<CAP>) -> bool {
        self.as_slice() == other.as_slice()
    }
}

impl<const CAP: usize> Eq for Octets<CAP> {
    ghost use Rattle.std.specs.Cmp.{on_equiv};
    ghost use Rattle.std.specs.Cmp.Lexicographic.{nat_list_eq_equiv};
    ghost use Rattle.terms.specs.Octets.{octets_of};

    ghost laws = { on_equiv octets_of nat_list_eq_equiv };
}
