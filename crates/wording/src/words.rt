use crate::address::Address;
use crate::octets::HexOctets;
use std::fmt;
use terms::fault::Fault;
use wire::header::{Ports, SegmentAt};
use wire::pdu::{Body, Part, Pdu};

// The words that stand for a PDU in a result line.
#[derive(Clone, Copy)]
pub struct PduWords<'a>(pub Pdu<'a>);

// The words that stand for a fault in a result line.
#[derive(Clone, Copy)]
pub struct FaultWords(pub Fault);

#[derive(Clone, Copy)]
struct Piece(Option<SegmentAt>);

impl fmt::Display for Piece {
    fn fmt<W: fmt::Write>(&self, f: &mut fmt::Formatter<W>) -> fmt::Result {
        match self.0 {
            Some(
                SegmentAt {
                    reference,
                    count,
                    sequence,
                    ..
                },
            ) => write!(f, "{reference}/{count}/{sequence}"),
            None => write!(f, "-"),
        }
    }
}

#[derive(Clone, Copy)]
struct BodyWords<'a>(Body<'a>);

impl fmt::Display for BodyWords<'_> {
    fn fmt<W: fmt::Write>(&self, f: &mut fmt::Formatter<W>) -> fmt::Result {
        let Ports { to, from } = self.0.ports;
        let piece = Piece(self.0.segment);
        let Part { place, octets } = self.0.user;
        let octets = HexOctets(octets);
        write!(f, "to={to} from={from} piece={piece} user={place}:{octets}")
    }
}

#[derive(Clone, Copy)]
struct AddressWords<'a>(Part<'a>);

impl fmt::Display for AddressWords<'_> {
    fn fmt<W: fmt::Write>(&self, f: &mut fmt::Formatter<W>) -> fmt::Result {
        let Some(address) = Address::in_field(self.0.octets) else {
            return Ok(());
        };
        let name = address.word();
        write!(f, "{name}:{address}")
    }
}

impl fmt::Display for PduWords<'_> {
    fn fmt<W: fmt::Write>(&self, f: &mut fmt::Formatter<W>) -> fmt::Result {
        match self.0 {
            Pdu::Data { more, body } => {
                let more = u8::from(more);
                let body = BodyWords(body);
                write!(f, "data more={more} {body}")
            }
            Pdu::DataLong {
                more,
                address,
                body,
            } => {
                let more = u8::from(more);
                let address = AddressWords(address);
                let body = BodyWords(body);
                write!(f, "data_long more={more} address={address} {body}")
            }
            Pdu::Ready => write!(f, "rr"),
            Pdu::Error(code) => {
                let code = code.number();
                write!(f, "error code={code}")
            }
            Pdu::Release(code) => {
                let code = code.number();
                write!(f, "rd code={code}")
            }
        }
    }
}

impl fmt::Display for FaultWords {
    fn fmt<W: fmt::Write>(&self, f: &mut fmt::Formatter<W>) -> fmt::Result {
        let Fault {
            cause,
            place,
            layer,
        } = self.0;
        let cause = cause.number();
        write!(f, "fault cause={cause} place={place} layer={layer}")
    }
}
