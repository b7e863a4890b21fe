#![tactic(auto)]

ghost use Rattle.std.specs.Prelude.{◌≡◌, ℕ, List, Option};
ghost use Rattle.terms.specs.Buffer.{answer_of, left_in};
ghost use Rattle.terms.specs.Decoded.{decoded_by, decoded_in};
ghost use Rattle.coding.specs.Coding.{Lawful, most};

use terms::refusal::Refusal;
use terms::stop::Stop;

// A coding turns octets into octets of which none is above a constant, at most 127, so that a link that carries only low octets
// can carry them. Its law is all that a user of it may know.
pub trait Coding {
    const HIGHEST: u8;

    ghost HIGHEST: { ℕ };

    ghost encoded: { Self → List ℕ → List ℕ };

    // The octets that an encoding stands for; none of what is no encoding.
    ghost decoded: { Self → List ℕ → Option (List ℕ) };

    // How long the encoding of so many octets is.
    ghost size: { Self → ℕ → ℕ };

    // The most octets whose encoding has at most `room` octets.
    fn most(&self, room: usize) -> usize
        ensures { result ≡ most (size self.now) room };

    // Writes the encoding; refused where the buffer does not hold it.
    fn encode(&self, octets: &[u8], out: &mut [u8]) -> Result<usize, Refusal>
        ensures answer { result ≡ answer_of (encoded self.now octets.now) out.old }
        ensures after { out.new ≡ left_in (encoded self.now octets.now) out.old };

    // Writes the octets that an encoding stands for: faulty where there are none, refused where the buffer does not hold them.
    fn decode(&self, text: &[u8], out: &mut [u8]) -> Result<usize, Stop>
        ensures answer { result ≡ decoded_by (decoded self.now text.now) out.old }
        ensures after { out.new ≡ decoded_in (decoded self.now text.now) out.old };

    ghost lawful: { (c : Self) → Lawful HIGHEST (encoded c) (decoded c) (size c) };
}
