ghost use Rattle.std.specs.Prelude.{◌≡◌, if◌then◌else◌, Some, None};
ghost use Rattle.terms.specs.Question.{told};
ghost use Rattle.terms.specs.Cause.{fault_of};
ghost use Rattle.wire.specs.Elements.{elements_left};
ghost use Rattle.wire.specs.Header.{fine_of, noted as with_element, questions_on, found_in};

use terms::cause::Cause;
use terms::fault::{Fault, Layer};
use wire::elements::{Element, Elements};
use wire::header::{Found, PORTS, Ports, SEGMENT, Segment, SegmentAt};

// A header or an element of one is wrong. Beside `From<Overrun>`, for what is wrong and overruns nothing.
pub(crate) fn wrong(place: usize) -> Fault
    ensures { result ≡ fault_of 45 place Layer.Header }
{
    Fault {
        cause: Cause::Header,
        place,
        layer: Layer::Header,
    }
}

// What is found with one element more, or nothing where the element is wrong.
fn noted(element: Element<'_>, found: Found) -> Option<Found>
    ensures { result ≡ (if fine_of element.entry.kind element.entry.octets.now then Some (with_element element.entry.place element.entry.kind element.entry.octets.now found) else None) }
{
    match element.kind {
        PORTS => {
            let &[a, b, c, d] = element.octets else {
                return None;
            };
            Some(Found {
                ports: Some(Ports::from([a, b, c, d])),
                ..found
            })
        }
        SEGMENT => {
            let &[reference, count, sequence] = element.octets else {
                return None;
            };
            let segment = Segment::new(reference, count, sequence)?;
            Some(Found {
                segment: Some(SegmentAt {
                    reference: segment.reference,
                    count: segment.count,
                    sequence: segment.sequence,
                    place: element.place + 4,
                }),
                ..found
            })
        }
        _ => Some(found),
    }
}

// What the elements of a header tell. The walk is left by its label at the first that overruns the header or is wrong.
pub(crate) fn walk(elements: Elements<'_>) -> Result<Found, Fault>
    ensures { result ≡ told (questions_on (elements_left elements.entry)) (found_in (elements_left elements.entry)) }
{
    let mut found = Found {
        ports: None,
        segment: None,
    };
    let fault = 'elements: {
        for element in elements {
            match element {
                Ok(element) => match noted(element, found) {
                    Some(next) => found = next,
                    None => break 'elements wrong(element.place),
                },
                Err(overrun) => break 'elements Fault::from(overrun),
            }
        }
        return Ok(found);
    };
    Err(fault)
}
