ghost use Rattle.std.specs.Prelude.{◌≡◌, ◌+◌, ◌*◌, ◌<◌, ◌≤◌, true, [], ◌∷◌, length, is_some};
ghost use Rattle.wire.specs.Number.{semi_of, digit_of, digits_of, all_digits, lawful_text, packed};

// The semi-octet that a character of a number stands for. No `TryFrom`: both types are std's.
pub fn semi_octet(c: char) -> Option<u8>
    ensures { result ≡ semi_of c }
{
    match c {
        '0'..='9' => Some(c as u8 - b'0'),
        '*' => Some(10),
        '#' => Some(11),
        'a' => Some(12),
        'b' => Some(13),
        'c' => Some(14),
        _ => None,
    }
}

fn all_digits(text: &[u8]) -> bool
    ensures { result ≡ all_digits text.now }
{
    text.iter().all(|c| semi_octet(*c as char).is_some())
}

// Whether the octets of a text are a number: 1 to 20 characters, each of which has a semi-octet.
pub fn is_number(text: &[u8]) -> bool
    ensures { result ≡ lawful_text text.now }
{
    (1..=20).contains(&text.len()) && all_digits(text)
}

fn digit(c: u8) -> u8
    requires { is_some (semi_of c) ≡ true }
    ensures value { result ≡ digit_of c }
    ensures small { result < 15 }
{
    semi_octet(c as char).unwrap()
}

// Two halves of an octet, the first digit in the low one.
fn halves(low: u8, high: u8) -> u8
    requires { (low < 16) × (high < 16) }
    ensures { result ≡ low + high * 16 }
{
    high * 16 + low
}

// The octet of two digits, or of one; 15 fills the high half beside an odd last digit.
pub(crate) fn pair(digits: &[u8]) -> u8
    requires some { 1 ≤ length digits.now }
    requires few { length digits.now ≤ 2 }
    requires lawful { all_digits digits.now ≡ true }
    ensures { packed (digits_of digits.now) ≡ result ∷ [] }
{
    match digits {
        [low, high] => halves(digit(*low), digit(*high)),
        [low] => halves(digit(*low), 15),
        _ => unreachable!(),
    }
}
