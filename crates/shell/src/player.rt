use crate::log_words::ResultLine;
use crate::options::Options;
use bearer::Bearer;
use dialogue_log::enter::{Outcome, enter};
use dialogue_log::entry::Entry;
use lines::line::Line;
use lines::state::Carrier;
use reader::read;
use std::alloc::{AllocError, Global};
use terms::stop::Stop;
use wire::pdu::Pdu;

// A bearer on which a log is played, and the heap for what is told of it.
#[derive(Drop)]
pub(crate) struct Player<L> {
    pub(crate) heap: Global,
    bearer: Carrier<L>,
}

impl<L: Line + Default> Player<L> {
    // A player on a new bearer, which is closed.
    pub(crate) fn new(heap: Global, asked: Options) -> Player<L> {
        Player {
            heap,
            bearer: Carrier::closed(asked.latest, asked.highest),
        }
    }
}

impl<L: Line> Player<L> {
    fn play<'a>(
        &mut self,
        entry: Entry<'_>,
        place: &'a mut [u8; 160],
    ) -> Result<Outcome<Pdu<'a>>, Stop> {
        Ok(match enter(&mut self.bearer, entry, place)? {
            Outcome::Taken(n) => Outcome::Taken(read(&place[..n])?),
            Outcome::Closed => Outcome::Closed,
            Outcome::Lost => Outcome::Lost,
        })
    }

    // The result line of an entry, with the number and the code as they now stand.
    pub(crate) fn result_line(
        &self,
        played: Result<Outcome<Pdu<'_>>, Stop>,
    ) -> Result<String, AllocError> {
        let line = ResultLine {
            number: self.bearer.number(),
            code: self.bearer.code(),
            played,
        };
        format!(in self.heap; "{line}\n")
    }

    // Plays an entry whose text is the raw line.
    pub(crate) fn played(&mut self, entry: Entry<'_>) -> Result<String, AllocError> {
        let mut place = [0u8; 160];
        let played = self.play(entry, &mut place);
        self.result_line(played)
    }
}
