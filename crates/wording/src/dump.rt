ghost use Rattle.std.specs.Prelude.{◌≡◌, ◌≤◌};
ghost use Rattle.wording.specs.Mark.{mark_at};

use std::fmt;

// The octets of a string in hex, sixteen a row, with a mark below one place.
#[derive(Clone, Copy)]
pub struct Dump<'a> {
    pub octets: &'a [u8],
    pub place: usize,
}

// Where a mark stands: below which row, and below which octet of it.
#[derive(Clone, Copy, PartialEq, Eq, Debug)]
pub struct Mark {
    pub row: usize,
    pub column: usize,
}

impl Mark {
    // The mark of a place. One past the end stands behind the last octet, also behind a full row.
    pub fn at(place: usize, len: usize) -> Mark
        ensures { result ≡ mark_at place len }
    {
        if place > 0 && place == len && place % 16 == 0 {
            return Mark {
                row: place / 16 - 1,
                column: 16,
            };
        }
        Mark {
            row: place / 16,
            column: place % 16,
        }
    }
}

fn show_row<W: fmt::Write>(row: &[u8], f: &mut fmt::Formatter<W>) -> fmt::Result {
    write!(f, " ")?;
    for b in row {
        write!(f, " {b:02X}")?;
    }
    writeln!(f)
}

fn show_mark<W: fmt::Write>(column: usize, f: &mut fmt::Formatter<W>) -> fmt::Result
    requires { column ≤ 16 }
{
    let indent = 2 + 3 * column;
    writeln!(f, "{:indent$}^^", "")
}

impl fmt::Display for Dump<'_> {
    fn fmt<W: fmt::Write>(&self, f: &mut fmt::Formatter<W>) -> fmt::Result {
        if self.octets.is_empty() {
            return writeln!(f, "  -\n  ^^");
        }
        let mark = Mark::at(self.place, self.octets.len());
        for (i, row) in self.octets.chunks(16).enumerate() {
            show_row(row, f)?;
            if i == mark.row {
                show_mark(mark.column, f)?;
            }
        }
        Ok(())
    }
}
