ghost use Rattle.std.specs.Prelude.{◌≡◌, Some};
ghost use Rattle.bearer.specs.Meaning.{text_in, text_of, over, string_in, code_in};
ghost use Rattle.lines.specs.State.{heard_of, opens};
ghost use Rattle.lines.specs.Opened.{code_told, count_told};

use crate::frame::parts;
use crate::line::LONGEST;
use bearer::code::Code;
use bearer::heard::Garbled;
use bearer::questions::all_low;

// Copies what is heard of a string; octets beyond a figure are garbled, and nothing is copied of them.
pub(crate) fn hear(string: &[u8], highest: u8, out: &mut [u8; 160]) -> Result<usize, Garbled>
    ensures answer { result ≡ text_in (heard_of highest (Some string.now)) }
    ensures copied { out.new ≡ over (Some (heard_of highest (Some string.now))) out.old }
{
    if string.len() > LONGEST || !all_low(string, highest) {
        return Err(Garbled);
    }
    out[..string.len()].copy_from_slice(string);
    Ok(string.len())
}

// What a mobile's opening string tells: its code, and how many octets were copied.
#[derive(Clone, Copy)]
pub(crate) struct Opened {
    pub(crate) code: Code,
    pub(crate) count: usize,
}

pub(crate) fn hear_opening(
    string: &[u8],
    highest: u8,
    out: &mut [u8; 160],
) -> Result<Opened, Garbled>
    ensures code { code_told result ≡ code_in (opens highest (Some string.now)) }
    ensures answer { Some (count_told result) ≡ text_of (string_in (opens highest (Some string.now))) }
    ensures copied { out.new ≡ over (string_in (opens highest (Some string.now))) out.old }
{
    let (code, octets) = parts(string).ok_or(Garbled)?;
    let count = hear(octets, highest, out)?;
    let code = Code::of(code).unwrap();
    Ok(Opened { code, count })
}
