ghost use Rattle.std.specs.Prelude.{◌≡◌, slice_index};
ghost use Rattle.rules.specs.Places.{header_place};

use wire::kind::Kind;

// The octet at a place; 0 beyond the end, as the definitions of the format have it, so no `Option`.
pub fn octet_at(s: &[u8], place: usize) -> u8
    ensures { result ≡ slice_index s.now place }
{
    s.get(place).copied().unwrap_or(0)
}

// The place of the header's length octet: behind the first octet, and behind the address field in Data_Long.
pub fn header_place(s: &[u8]) -> usize
    ensures { result ≡ header_place s.now }
{
    match Kind::try_from(octet_at(s, 0) / 2) {
        Ok(Kind::DataLong) => 2 + octet_at(s, 1) as usize % 32,
        _ => 1,
    }
}
