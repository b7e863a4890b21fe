ghost use Rattle.std.specs.Prelude.{◌≤◌};

// The types of the elements that hold the ports and the numbers of a segment.
pub const PORTS: u8 = 0x05;

pub const SEGMENT: u8 = 0x00;

// The ports of a datagram, each high octet first on the wire.
#[derive(Clone, Copy, PartialEq, Eq, Debug)]
pub struct Ports {
    pub to: u16,
    pub from: u16,
}

impl Ports {
    ghost use Rattle.std.specs.Prelude.{◌≡◌};
    ghost use Rattle.wire.specs.Header.{ports_octets};

    pub fn octets(self) -> [u8; 4]
        ensures { result ≡ ports_octets self }
    {
        let [a, b] = self.to.to_be_bytes();
        let [c, d] = self.from.to_be_bytes();
        [a, b, c, d]
    }
}

impl From<[u8; 4]> for Ports {
    ghost use Rattle.std.specs.Prelude.{◌≡◌};
    ghost use Rattle.wire.specs.Header.{ports_in};

    ghost from_gives = { λ octets ports. ports ≡ ports_in octets };

    fn from([a, b, c, d]: [u8; 4]) -> Ports {
        Ports {
            to: u16::from_be_bytes([a, b]),
            from: u16::from_be_bytes([c, d]),
        }
    }
}

// The numbers of one segment of a datagram that was cut: the datagram's reference, how many segments it has, and
// which one this is, from 1. Only lawful numbers can be held.
#[derive(Clone, Copy)]
pub struct Segment {
    pub reference: u8,
    pub count: u8,
    pub sequence: u8,
    ghost low: { 1 ≤ sequence },
    ghost high: { sequence ≤ count },
}

// The numbers of a segment as they stand in a string, with the place of the sequence octet. Unlike those of Segment they hold no invariant,
// since the definitions of the format name them for any three octets, lawful or not.
#[derive(Clone, Copy, PartialEq, Eq, Debug)]
pub struct SegmentAt {
    pub reference: u8,
    pub count: u8,
    pub sequence: u8,
    pub place: usize,
}

// What the elements of a header tell: of a repeated element the last counts.
#[derive(Clone, Copy, PartialEq, Eq, Debug)]
pub struct Found {
    pub ports: Option<Ports>,
    pub segment: Option<SegmentAt>,
}
