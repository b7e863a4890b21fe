ghost use Rattle.std.specs.Prelude.{◌≡◌, ◌+◌, ◌≤◌, length, IfOk, Ok, slice_index};
ghost use Rattle.terms.specs.Question.{told};
ghost use Rattle.wire.specs.Format.{Stands};
ghost use Rattle.wire.specs.Pdu.{Read, seen_pdu, seen, start_questions, exact_questions, address_questions, field_size, told_form, data_form, long_form, ready_form, reading};
ghost use Rattle.reader.specs.Code.{IsCodeIn};
ghost use Rattle.reader.specs.Opening.{seen_opening};

use crate::body::carried_at;
use addresses::lawful::size;
use terms::cause::Cause;
use terms::fault::{Fault, Layer};
use wire::kind::Kind;
use wire::no_such_number::NoSuchNumber;
use wire::pdu::{Part, Pdu};

fn fault(cause: Cause, place: usize) -> Fault
    ensures { result ≡ record { cause = cause; place = place; layer = Layer.Pdu } }
{
    Fault {
        cause,
        place,
        layer: Layer::Pdu,
    }
}

// The type and the flag in the first octet, whose version is 0.
fn opening(s: &[u8]) -> Result<(Kind, bool), Fault>
    ensures { seen_opening result ≡ told (start_questions s.now) (slice_index s.now 0) }
{
    let Some(&first) = s.first() else {
        return Err(fault(Cause::Empty, 0));
    };
    if first >= 32 {
        return Err(fault(Cause::Version, 0));
    }
    let more = first % 2 == 1;
    match Kind::try_from(first / 2) {
        Ok(kind) if !more || matches!(kind, Kind::Data | Kind::DataLong) => Ok((kind, more)),
        _ => Err(fault(Cause::Kind, 0)),
    }
}

// The string has exactly `n` octets.
fn exactly(n: usize, s: &[u8]) -> Result<(), Fault>
    ensures { result ≡ told (exact_questions n s.now) tt }
{
    if s.len() < n {
        return Err(fault(Cause::OctetCount, s.len()));
    }
    if s.len() > n {
        return Err(fault(Cause::OctetCount, n));
    }
    Ok(())
}

// The code octet of an Error or a release.
fn code<C: TryFrom<u8, Error = NoSuchNumber>>(s: &[u8]) -> Result<C, Fault>
    ensures { IsCodeIn C.try_from_gives s.now result }
{
    exactly(2, s)?;
    // No `map_err`: the check does not follow the answer of a type parameter through it.
    match C::try_from(s[1]) {
        Ok(code) => Ok(code),
        Err(NoSuchNumber) => Err(fault(Cause::Kind, 1)),
    }
}

// The size of the address field, which begins at place 1.
fn address_size(s: &[u8]) -> Result<usize, Fault>
    requires { 1 ≤ length s.now }
    ensures answer { result ≡ told (address_questions s.now) (field_size s.now) }
    ensures within { IfOk result (λ n. 1 + n ≤ length s.now) }
{
    size(&s[1..]).ok_or(fault(Cause::AddressField, 1))
}

fn data(s: &[u8], more: bool) -> Result<Pdu<'_>, Fault>
    ensures { seen result ≡ told_form (data_form more s.now) }
{
    let body = carried_at(s, 1)?;
    Ok(Pdu::Data { more, body })
}

fn data_long(s: &[u8], more: bool) -> Result<Pdu<'_>, Fault>
    requires { 1 ≤ length s.now }
    ensures { seen result ≡ told_form (long_form more s.now) }
{
    let n = address_size(s)?;
    let address = Part {
        place: 1,
        octets: &s[1..1 + n],
    };
    let body = carried_at(s, 1 + n)?;
    Ok(Pdu::DataLong {
        more,
        address,
        body,
    })
}

fn ready(s: &[u8]) -> Result<Pdu<'_>, Fault>
    ensures { seen result ≡ told_form (ready_form s.now) }
{
    exactly(1, s)?;
    Ok(Pdu::Ready)
}

fn by_kind(s: &[u8]) -> Result<Pdu<'_>, Fault>
    ensures { seen result ≡ reading s.now }
{
    let (kind, more) = opening(s)?;
    match kind {
        Kind::Data => data(s, more),
        Kind::DataLong => data_long(s, more),
        Kind::Ready => ready(s),
        Kind::Error => Ok(Pdu::Error(code(s)?)),
        Kind::Release => Ok(Pdu::Release(code(s)?)),
    }
}

// The PDU that a string holds, or the first rule that it breaks. What is read keeps every rule of the format, and every
// string that keeps them is read as the PDU that it is.
pub fn read(s: &[u8]) -> Result<Pdu<'_>, Fault>
    ensures answer { seen result ≡ reading s.now }
    ensures sound { IfOk result (λ p. Stands s.now (seen_pdu p)) }
    ensures complete { (p : Read) → Stands s.now p → seen result ≡ Ok p }
{
    by_kind(s)
}
