use std::fmt;

// Octets in capital hex, one behind the other.
#[derive(Clone, Copy)]
pub struct HexOctets<'a>(pub &'a [u8]);

impl fmt::Display for HexOctets<'_> {
    fn fmt<W: fmt::Write>(&self, f: &mut fmt::Formatter<W>) -> fmt::Result {
        for b in self.0 {
            write!(f, "{b:02X}")?;
        }
        Ok(())
    }
}
