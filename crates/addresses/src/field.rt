ghost use Rattle.terms.specs.Octets.{octets_of};
ghost use Rattle.wire.specs.Address.{LawfulField};

use terms::octets::Octets;

// An address field: only lawful octets can be held. The longest, of an IPv6 address, has 17.
#[derive(Clone, Copy)]
pub struct AddressField {
    pub(crate) octets: Octets<17>,
    ghost lawful: { LawfulField (octets_of octets) },
}
