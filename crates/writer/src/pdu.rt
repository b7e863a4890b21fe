ghost use Rattle.std.specs.Prelude.{◌≡◌, ◌+◌, ◌≤◌, false, [], ◌∷◌};
ghost use Rattle.std.specs.Option.{option_map};
ghost use Rattle.terms.specs.Buffer.{answer_of, left_in};
ghost use Rattle.wire.specs.Format.{opening};
ghost use Rattle.wire.specs.Segment.{numbers_of};
ghost use Rattle.wire.specs.Back.{Writes};
ghost use Rattle.wire.specs.Written.{bodied, ready, error_of, release_of};
ghost use Rattle.addresses.specs.Field.{field_of};
ghost use Rattle.writer.specs.Payload.{data_message, long_message};

use crate::buffer::write_all;
use crate::header::header;
use crate::payload::Payload;
use addresses::field::AddressField;
use terms::refusal::Refusal;
use wire::code::{ErrorCode, ReleaseCode};
use wire::kind::Kind;

fn first_octet(kind: Kind, more: bool) -> u8
    ensures { result ≡ opening kind more }
{
    kind.number() * 2 + u8::from(more)
}

// First octet, address field, header and user octets.
fn write_bodied(
    kind: Kind,
    address: &[u8],
    payload: Payload<'_>,
    out: &mut [u8],
) -> Result<usize, Refusal>
    ensures answer { result ≡ answer_of (bodied (opening kind payload.entry.more) address.now payload.entry.ports (option_map numbers_of payload.entry.segment) payload.entry.user.now) out.old }
    ensures after { out.new ≡ left_in (bodied (opening kind payload.entry.more) address.now payload.entry.ports (option_map numbers_of payload.entry.segment) payload.entry.user.now) out.old }
{
    let first = [first_octet(kind, payload.more)];
    let header = header(payload.ports, payload.segment);
    write_all(&[&first, address, header.as_slice(), payload.user], out)
}

// Each call below writes one PDU at the head of a buffer and tells how many octets it has; those beyond are kept. A buffer
// that is too small is refused and left as it was. Whoever reads the octets that were told has the PDU that was given.

pub fn write_data(payload: Payload<'_>, out: &mut [u8]) -> Result<usize, Refusal>
    ensures { Writes (data_message payload.entry) out.old out.new result }
{
    write_bodied(Kind::Data, &[], payload, out)
}

pub fn write_data_long(
    address: &AddressField,
    payload: Payload<'_>,
    out: &mut [u8],
) -> Result<usize, Refusal>
    ensures { Writes (long_message (field_of address.now) payload.entry) out.old out.new result }
{
    write_bodied(Kind::DataLong, address.as_slice(), payload, out)
}

pub fn write_ready(out: &mut [u8]) -> Result<usize, Refusal>
    ensures { Writes ready out.old out.new result }
{
    write_all(&[&[first_octet(Kind::Ready, false)]], out)
}

pub fn write_error(code: ErrorCode, out: &mut [u8]) -> Result<usize, Refusal>
    ensures { Writes (error_of code) out.old out.new result }
{
    write_all(&[&[first_octet(Kind::Error, false), code.number()]], out)
}

pub fn write_release(code: ReleaseCode, out: &mut [u8]) -> Result<usize, Refusal>
    ensures { Writes (release_of code) out.old out.new result }
{
    write_all(&[&[first_octet(Kind::Release, false), code.number()]], out)
}
