ghost use Rattle.std.specs.Prelude.{◌≡◌, ◌≤◌, IfOk};
ghost use Rattle.lines.specs.State.{meaning_of};
ghost use Rattle.dialogue_log.specs.Bring.{brought_answer, brought_place, brought_after};

use bearer::Bearer;
use bearer::side::Side;
use lines::line::Line;
use lines::state::Carrier;
use terms::stop::Stop;

// Brings a raw string in as a side's, and has the other side take it.
#[tactic(auto, using(crate::proofs::Brings::done_is))]
pub fn bring<L: Line>(
    b: &mut Carrier<L>,
    side: Side,
    raw: &[u8],
    place: &mut [u8; 160],
) -> Result<usize, Stop>
    ensures answer { result ≡ brought_answer L.Line side raw.now (meaning_of L.Line b.old) }
    ensures within { IfOk result (λ n. n ≤ 152) }
    ensures place { place.new ≡ brought_place L.Line side raw.now place.old (meaning_of L.Line b.old) }
    ensures after { meaning_of L.Line b.new ≡ brought_after L.Line side raw.now (meaning_of L.Line b.old) }
{
    b.load(side, raw)?;
    b.take(side.other(), place)
}
