use crate::input::answer_each;
use crate::options::Options;
use crate::player::Player;
use console::line::{Line as Text, Reason, read_line, without_end};
use dialogue_log::entry::{Entry, entry_of};
use direct::DirectLine;
use gateway::row::Row;
use lines::line::Line;
use std::alloc::{AllocError, Global};
use std::fmt::Display;
use std::io;
use terms::refusal::Refusal;

// A kind of line, with the form in which a log of it gives the raw strings.
pub(crate) trait Logged: Line + Default + Drop {
    // Plays an entry that stands in the input line of that number.
    fn played(
        player: &mut Player<Self>,
        number: u64,
        entry: Entry<'_>,
    ) -> Result<String, AllocError>;
}

fn bad_line(heap: Global, number: u64, why: impl Display + Drop) -> Result<String, AllocError> {
    format!(in heap; "refused input line {number}: {why}\n")
}

// A gateway's line is given as it stands.
impl Logged for Row {
    fn played(player: &mut Player<Row>, _: u64, entry: Entry<'_>) -> Result<String, AllocError> {
        player.played(entry)
    }
}

// A raw USSD string is given in hex. More than 160 octets are more than a line holds.
impl Logged for DirectLine {
    fn played(
        player: &mut Player<DirectLine>,
        number: u64,
        entry: Entry<'_>,
    ) -> Result<String, AllocError> {
        let Entry::Load { side, text } = entry else {
            return player.played(entry);
        };
        match read_line(player.heap, text)? {
            Text::String(raw) => {
                let text = raw.as_slice();
                player.played(Entry::Load { side, text })
            }
            Text::Refused(Reason::TooLong) => player.result_line(Err(Refusal::RawTooLong.into())),
            Text::Refused(reason) => bad_line(player.heap, number, reason),
            Text::PassedOver => bad_line(player.heap, number, Reason::NotHex),
        }
    }
}

fn answered<L: Logged>(
    player: &mut Player<L>,
    number: u64,
    line: &[u8],
) -> Result<String, AllocError> {
    match entry_of(without_end(line)) {
        Some(entry) => L::played(player, number, entry),
        None => bad_line(player.heap, number, "no such entry"),
    }
}

// Plays each line of standard input on a new bearer.
pub(crate) fn log<L: Logged>(
    rt: &(impl Input + Print + AllocGlobal),
    asked: Options,
) -> io::Result<()> {
    let mut player = Player::<L>::new(rt.alloc(), asked);
    answer_each(rt, |number, line| answered(&mut player, number, line))
}
