ghost use Rattle.std.specs.Prelude.{◌≡◌, ◌+◌, ◌*◌, ◌/◌, ◌≤◌, true, ◌++◌, length, drop};
ghost use Rattle.terms.specs.Buffer.{answer_of, left_in};
ghost use Rattle.terms.specs.Decoded.{decoded_by, decoded_in};
ghost use Rattle.hex_text.specs.Hex.{hex_of, is_hex, octets_in, unhex};

use crate::digits::{digit, is_hex, worth};
use terms::cause::Cause;
use terms::fault::{Fault, Layer};
use terms::refusal::Refusal;
use terms::stop::Stop;

#[tactic(auto, using(crate::proofs::Hexes::put_all))]
fn put(octets: &[u8], out: &mut [u8])
    requires { length octets.now ≤ length out.old / 2 }
    ensures { out.new ≡ hex_of octets.now ++ drop (2 * length octets.now) out.old }
{
    for (i, octet) in octets.iter().enumerate() {
        out[2 * i] = digit(octet / 16);
        out[2 * i + 1] = digit(octet % 16);
    }
}

// Writes octets as characters; refused where the buffer does not hold them.
#[tactic(auto, using(terms::proofs::Buffers::too_small, terms::proofs::Buffers::room, crate::proofs::Hexes::hex_length))]
pub fn encode(octets: &[u8], out: &mut [u8]) -> Result<usize, Refusal>
    ensures answer { result ≡ answer_of (hex_of octets.now) out.old }
    ensures after { out.new ≡ left_in (hex_of octets.now) out.old }
{
    if octets.len() > out.len() / 2 {
        return Err(Refusal::Buffer);
    }
    put(octets, out);
    Ok(2 * octets.len())
}

fn put_octets(text: &[u8], out: &mut [u8])
    requires hex { is_hex text.now ≡ true }
    requires room { length text.now / 2 ≤ length out.old }
    ensures { out.new ≡ octets_in text.now ++ drop (length (octets_in text.now)) out.old }
{
    for (i, pair) in text.chunks_exact(2).enumerate() {
        out[i] = worth(pair[0]) * 16 + worth(pair[1]);
    }
}

// Reads characters back as octets: faulty where they are not hexadecimal, refused where the buffer does not hold the octets.
pub fn decode(text: &[u8], out: &mut [u8]) -> Result<usize, Stop>
    ensures answer { result ≡ decoded_by (unhex text.now) out.old }
    ensures after { out.new ≡ decoded_in (unhex text.now) out.old }
{
    if !is_hex(text) {
        return Err(Stop::Faulty(Fault {
            cause: Cause::Garbled,
            place: 0,
            layer: Layer::Coding,
        }));
    }
    if text.len() / 2 > out.len() {
        return Err(Stop::Refused(Refusal::Buffer));
    }
    put_octets(text, out);
    Ok(text.len() / 2)
}
