ghost use Rattle.std.specs.Prelude.{◌≡◌, IfOk};
ghost use Rattle.lines.specs.State.{meaning_of};
ghost use Rattle.dialogue_log.specs.Entry.{seen_entry};
ghost use Rattle.dialogue_log.specs.Enter.{Fits, entered_answer, entered_place, entered_after};

use crate::bring::bring;
use crate::entry::Entry;
use bearer::Bearer;
use lines::line::Line;
use lines::state::Carrier;
use terms::stop::Stop;

// What came of an entry that was not stopped: the other side took something, or the dialogue is over.
#[derive(Clone, Copy, PartialEq, Eq, Debug)]
pub enum Outcome<T> {
    Taken(T),
    Closed,
    Lost,
}

// Plays one entry of a log, and tells how many octets were taken; the text of a load is the raw line.
pub fn enter<L: Line>(
    b: &mut Carrier<L>,
    entry: Entry<'_>,
    place: &mut [u8; 160],
) -> Result<Outcome<usize>, Stop>
    ensures answer { result ≡ entered_answer L.Line (seen_entry entry.entry) (meaning_of L.Line b.old) }
    ensures within { IfOk result Fits }
    ensures place { place.new ≡ entered_place L.Line (seen_entry entry.entry) place.old (meaning_of L.Line b.old) }
    ensures after { meaning_of L.Line b.new ≡ entered_after L.Line (seen_entry entry.entry) (meaning_of L.Line b.old) }
{
    Ok(match entry {
        Entry::Load { side, text } => Outcome::Taken(bring(b, side, text, place)?),
        Entry::Close(side) => {
            b.close(side)?;
            Outcome::Closed
        }
        Entry::Lose => {
            b.lose()?;
            Outcome::Lost
        }
    })
}
