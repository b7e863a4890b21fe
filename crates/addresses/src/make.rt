ghost use Rattle.std.specs.Prelude.{◌≡◌, ◌+◌, ◌*◌, ◌<◌, ◌≤◌, true, [], ◌∷◌, length, if◌then◌else◌, Some, None};
ghost use Rattle.std.specs.Option.{option_map};
ghost use Rattle.terms.specs.Question.{told};
ghost use Rattle.terms.specs.Refusal.{must};
ghost use Rattle.wire.specs.Address.{content_fine};
ghost use Rattle.wire.specs.Kind.{address_kind_number};
ghost use Rattle.wire.specs.Number.{lawful_text, digits_of, number_field};
ghost use Rattle.addresses.specs.Field.{field_of, field_told, ipv4_field, ipv6_field, is_field};

use crate::field::AddressField;
use crate::lawful::size;
use crate::number::{is_number, pair};
use terms::octets::Octets;
use terms::refusal::Refusal;
use wire::kind::{AddressKind, NumberType};

// The field of an address, its address octet first.
fn fixed(kind: AddressKind, content: &[u8]) -> AddressField
    requires lawful { content_fine (address_kind_number kind) content.now ≡ true }
    requires within { length content.now ≤ 16 }
    ensures { field_of result ≡ (address_kind_number kind * 32 + length content.now) ∷ content.now }
{
    let mut octets = Octets::new();
    octets
        .push(kind.number() * 32 + content.len() as u8)
        .unwrap();
    octets.append(content).unwrap();
    AddressField { octets }
}

// A number of 1 to 20 digits, packed two to an octet.
fn number_field(digits: &[u8], kind: NumberType) -> AddressField
    requires { lawful_text digits.now ≡ true }
    ensures { field_of result ≡ number_field kind (digits_of digits.now) }
{
    let half = (digits.len() + 1) / 2;
    let head = AddressKind::Msisdn.number() * 32 + 2 + half as u8;
    let mut octets = Octets::new();
    octets
        .append(&[head, digits.len() as u8, kind.octet()])
        .unwrap();
    for two in digits.chunks(2) {
        octets.push(pair(two)).unwrap();
    }
    AddressField { octets }
}

impl AddressField {
    pub fn ipv4(address: [u8; 4]) -> AddressField
        ensures { field_of result ≡ ipv4_field address }
    {
        fixed(AddressKind::Ipv4, &address)
    }

    pub fn ipv6(address: [u8; 16]) -> AddressField
        ensures { field_of result ≡ ipv6_field address }
    {
        fixed(AddressKind::Ipv6, &address)
    }

    // The field of a number given as text; refused where the text is not 1 to 20 lawful characters.
    pub fn msisdn(text: &str, kind: NumberType) -> Result<AddressField, Refusal>
        ensures { field_told result ≡ told (must (lawful_text text.now) 5 ∷ []) (number_field kind (digits_of text.now)) }
    {
        let digits = text.as_bytes();
        if !is_number(digits) {
            return Err(Refusal::Msisdn);
        }
        Ok(number_field(digits, kind))
    }

    // The field that octets are, if they are one: so an address that was read can be kept and sent again.
    pub fn from_octets(octets: &[u8]) -> Option<AddressField>
        ensures { option_map field_of result ≡ (if is_field octets.now then Some octets.now else None) }
    {
        if size(octets) != Some(octets.len()) {
            return None;
        }
        let octets = Octets::of(octets).unwrap();
        Some(AddressField { octets })
    }

    // Its octets, the address octet first.
    pub fn as_slice(&self) -> &[u8]
        ensures { result.now ≡ field_of self.now }
    {
        self.octets.as_slice()
    }
}
