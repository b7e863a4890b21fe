ghost use Rattle.hex_text.specs.Hex.{hex_of, unhex};
ghost use Rattle.hex_coding.specs.Lawful.{size, hex_lawful};

use coding::Coding;
use hex_text::text;
use terms::refusal::Refusal;
use terms::stop::Stop;

// The coding that writes two capital hexadecimal characters for each octet; `F` is the highest of them.
#[derive(Clone, Copy)]
pub struct Hex;

impl Coding for Hex {
    const HIGHEST: u8 = 70;

    ghost HIGHEST = { 70 };

    ghost encoded = { λ s. hex_of };

    ghost decoded = { λ s. unhex };

    ghost size = { λ s. size };

    ghost lawful = { λ c. hex_lawful };

    fn most(&self, room: usize) -> usize {
        room / 2
    }

    fn encode(&self, octets: &[u8], out: &mut [u8]) -> Result<usize, Refusal> {
        text::encode(octets, out)
    }

    fn decode(&self, text: &[u8], out: &mut [u8]) -> Result<usize, Stop> {
        text::decode(text, out)
    }
}
