ghost use Rattle.std.specs.Prelude.{◌≡◌, ◌+◌, if◌then◌else◌, Some, None};
ghost use Rattle.wire.specs.Address.{content_size, address_fine};

use crate::rule::broken_in;

// How many octets the address field has that stands at the head of the octets, if one stands there.
pub fn size(octets: &[u8]) -> Option<usize>
    ensures { result ≡ (if address_fine octets.now then Some (1 + content_size octets.now) else None) }
{
    if broken_in(octets).is_some() {
        return None;
    }
    Some(1 + octets[0] as usize % 32)
}

// Whether an address field stands at the head of the octets.
pub fn stands(octets: &[u8]) -> bool
    ensures { result ≡ address_fine octets.now }
{
    broken_in(octets).is_none()
}
