ghost use Rattle.std.specs.Prelude.{◌≡◌, ◌+◌, ◌≤◌, length};
ghost use Rattle.std.specs.Option.{option_map};
ghost use Rattle.terms.specs.Octets.{octets_of};
ghost use Rattle.lines.specs.Frame.{frame as framed_as, parts, run};
ghost use Rattle.lines.specs.State.{stands_as};

use crate::ussd::Ussd;
use bearer::side::Side;

// A mobile's opening string: `*#`, the code, `*`, the octets, `#`.
fn framed(code: &[u8], octets: &[u8]) -> Ussd
    requires { (length code.now ≤ 4) × (length octets.now ≤ 152) }
    ensures { octets_of result ≡ framed_as code.now octets.now }
{
    let mut string = Ussd::new();
    string.append(b"*#").unwrap();
    string.append(code).unwrap();
    string.append(b"*").unwrap();
    string.append(octets).unwrap();
    string.append(b"#").unwrap();
    string
}

// The opening string of a side, as it stands.
pub(crate) fn opening(side: Side, code: &[u8], octets: &[u8]) -> Ussd
    requires { (length code.now ≤ 4) × (length octets.now ≤ 152) }
    ensures { octets_of result ≡ stands_as side code.now octets.now }
{
    match side {
        Side::Mobile => framed(code, octets),
        Side::Network => Ussd::of(octets).unwrap(),
    }
}

// How many digits stand at the front.
fn digit_run(xs: &[u8]) -> usize
    ensures run { result ≡ run xs.now }
    ensures within { result ≤ length xs.now }
{
    xs.iter().take_while(|x| x.is_ascii_digit()).count()
}

// The code and the octets, in a string of the opening form.
pub(crate) fn parts(string: &[u8]) -> Option<(&[u8], &[u8])>
    ensures { option_map (λ p. (p.0.now, p.1.now)) result ≡ parts string.now }
{
    let [b'*', b'#', middle @ .., b'#'] = string else {
        return None;
    };
    let (code, rest) = middle.split_at(digit_run(middle));
    match rest {
        [b'*', octets @ ..] if (2..=4).contains(&code.len()) => Some((code, octets)),
        _ => None,
    }
}
