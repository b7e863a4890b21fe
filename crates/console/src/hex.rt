ghost use Rattle.std.specs.Prelude.{◌≡◌, IfOk, IsTrue};
ghost use Rattle.std.specs.List.{list_all};
ghost use Rattle.console.specs.Hex.{digit_value, is_digit, paired};

use std::alloc::{AllocError, Global};

// What a hex digit, capital or small, is worth.
pub fn digit(c: u8) -> Option<u8>
    ensures { result ≡ digit_value c }
{
    let worth = (c as char).to_digit(16)?;
    Some(worth as u8)
}

// The octets of hex digits, two to an octet.
pub(crate) fn octets(heap: Global, digits: &[u8]) -> Result<Vec<u8>, AllocError>
    requires { IsTrue (list_all is_digit digits.now) }
    ensures { IfOk result (λ v. v.items ≡ paired digits.now) }
{
    let mut all = Vec::new(heap);
    for pair in digits.chunks_exact(2) {
        all.push(digit(pair[0]).unwrap() * 16 + digit(pair[1]).unwrap())?;
    }
    Ok(all)
}
