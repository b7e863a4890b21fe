ghost use Rattle.std.specs.Prelude.{◌≡◌};
ghost use Rattle.dialogue_log.specs.Entry.{seen_entry, seen_in, entry_in, of_side};

use bearer::side::Side;

// One line of a log.
#[derive(Clone, Copy)]
pub enum Entry<'a> {
    Load { side: Side, text: &'a [u8] },
    Close(Side),
    Lose,
}

fn of_side(side: Side, text: &[u8]) -> Entry<'_>
    ensures { seen_entry result ≡ of_side side text.now }
{
    match text {
        b"close" => Entry::Close(side),
        _ => Entry::Load { side, text },
    }
}

// The entry that a line is: `mobile TEXT`, `network TEXT`, `mobile close`, `network close` or `lose`.
// No `FromStr`: an entry borrows its text from the line, and the line is octets.
pub fn entry_of(line: &[u8]) -> Option<Entry<'_>>
    ensures { seen_in result ≡ entry_in line.now }
{
    if line == b"lose".as_slice() {
        return Some(Entry::Lose);
    }
    if let Some(text) = line.strip_prefix(b"mobile ") {
        return Some(of_side(Side::Mobile, text));
    }
    let text = line.strip_prefix(b"network ")?;
    Some(of_side(Side::Network, text))
}
