ghost use Rattle.std.specs.Prelude.{◌≡◌};
ghost use Rattle.std.specs.Option.{option_map};
ghost use Rattle.terms.specs.Octets.{octets_of};
ghost use Rattle.wire.specs.Segment.{numbers_of};
ghost use Rattle.wire.specs.Written.{header as header_octets};

use terms::octets::Octets;
use wire::header::{PORTS, Ports, SEGMENT, Segment};

// The length octet, the ports, then the numbers of a segment.
pub(crate) fn header(ports: Ports, segment: Option<Segment>) -> Octets<12>
    ensures { octets_of result ≡ header_octets ports (option_map numbers_of segment) }
{
    let [a, b, c, d] = ports.octets();
    let mut octets = Octets::new();
    match segment {
        None => octets.append(&[6, PORTS, 4, a, b, c, d]).unwrap(),
        Some(s) => {
            octets.append(&[11, PORTS, 4, a, b, c, d]).unwrap();
            octets
                .append(&[SEGMENT, 3, s.reference, s.count, s.sequence])
                .unwrap();
        }
    }
    octets
}
