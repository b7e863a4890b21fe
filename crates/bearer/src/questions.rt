ghost use Rattle.std.specs.Prelude.{◌≡◌};
ghost use Rattle.bearer.specs.Meaning.{low, digits, lawful_code};

use crate::side::Side;

// Whether no octet is above `highest`. A loop, since it goes over each string that is heard, and `all` takes nearly three times as long.
pub fn all_low(octets: &[u8], highest: u8) -> bool
    ensures { result ≡ low highest octets.now }
{
    for x in octets {
        if *x > highest {
            return false;
        }
    }
    true
}

fn all_digits(code: &[u8]) -> bool
    ensures { result ≡ digits code.now }
{
    code.iter().all(|x| x.is_ascii_digit())
}

// Whether a side may open with a service code.
pub fn is_lawful(side: Side, code: &[u8]) -> bool
    ensures { result ≡ lawful_code side code.now }
{
    match side {
        Side::Mobile => (2..=4).contains(&code.len()) && all_digits(code),
        Side::Network => code.is_empty(),
    }
}
