ghost use Rattle.std.specs.Prelude.{◌≡◌, ◌≤◌, length};
ghost use Rattle.terms.specs.Octets.{octets_of};
ghost use Rattle.gateway.specs.Form.{message_type, component_type, head as head_at, tail as tail_of};

use bearer::side::Side;
use itoa::Buffer;
use lines::place::Place;
use terms::octets::Octets;

fn message_type(opening: bool) -> &'static [u8]
    ensures octets { result.now ≡ message_type opening }
    ensures len { length result.now ≤ 8 }
{
    if opening { b"begin" } else { b"continue" }
}

fn component_type(opening: bool, from: Side) -> &'static [u8]
    ensures octets { result.now ≡ component_type opening from }
    ensures len { length result.now ≤ 6 }
{
    match (opening, from) {
        (false, Side::Mobile) => b"result",
        _ => b"invoke",
    }
}

// How many octets the front of a line has room for: it is made anew each time a line is read, so it is no longer than it need be.
pub(crate) const HEAD: usize = 120;

// All of a line before the string.
pub(crate) fn head_of(place: Place) -> Octets<HEAD>
    ensures octets { octets_of result ≡ head_at place }
    ensures len { length (octets_of result) ≤ 120 }
{
    let mut number = Buffer::new();
    let mut head = Octets::new();
    head.append(b"<siggw><msg type=\"").unwrap();
    head.append(message_type(place.opening)).unwrap();
    head.append(b"\"><dialog id=\"").unwrap();
    head.append(number.format(place.number).as_bytes()).unwrap();
    head.append(b"\"/><component type=\"").unwrap();
    head.append(component_type(place.opening, place.from))
        .unwrap();
    head.append(b"\"><param name=\"ussd_string\" v=\"").unwrap();
    head
}

// All of a line behind the string.
pub(crate) fn tail() -> &'static [u8]
    ensures octets { result.now ≡ tail_of }
    ensures len { length result.now ≡ 29 }
{
    b"\"/></component></msg></siggw>"
}
