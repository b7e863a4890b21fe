ghost use Rattle.std.specs.Prelude.{◌≡◌, ◌<◌, true};
ghost use Rattle.hex_text.specs.Hex.{digit_of, is_digit, value_of, digit_value, is_hex};

// The character of a half octet.
pub(crate) fn digit(value: u8) -> u8
    requires { value < 16 }
    ensures { result ≡ digit_of value }
{
    if value < 10 {
        b'0' + value
    } else {
        b'A' - 10 + value
    }
}

// The half octet that a capital hexadecimal digit stands for.
pub(crate) fn value(c: u8) -> Option<u8>
    ensures { result ≡ digit_value c }
{
    match c {
        b'0'..=b'9' => Some(c - b'0'),
        b'A'..=b'F' => Some(c - b'A' + 10),
        _ => None,
    }
}

// The half octet that a digit stands for: `value` where that is known to be one, and so without a test. Reading text asks it of every
// character, and a test there doubles the time.
pub(crate) fn worth(digit: u8) -> u8
    requires { is_digit digit ≡ true }
    ensures value { result ≡ value_of digit }
    ensures small { result < 16 }
{
    if digit <= b'9' {
        digit - b'0'
    } else {
        digit - (b'A' - 10)
    }
}

// Whether a character is a capital hexadecimal digit.
pub fn is_digit(c: u8) -> bool
    ensures { result ≡ is_digit c }
{
    value(c).is_some()
}

// Whether characters are an even count of capital hexadecimal digits.
#[tactic(auto, using(crate::proofs::Hexes::hex_if_odd))]
pub fn is_hex(text: &[u8]) -> bool
    ensures { result ≡ is_hex text.now }
{
    text.len() % 2 == 0 && text.iter().all(|c| is_digit(*c))
}
