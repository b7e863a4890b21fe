ghost use Rattle.std.specs.Prelude.{◌≡◌};
ghost use Rattle.terms.specs.Question.{told};
ghost use Rattle.wire.specs.Pdu.{seen_body, header_questions, body_in};

use crate::header::{walk, wrong};
use terms::fault::Fault;
use wire::elements::Elements;
use wire::pdu::{Body, Part};

// The header that begins at `at`, and the user octets after it.
pub(crate) fn carried_at(s: &[u8], at: usize) -> Result<Body<'_>, Fault>
    ensures { seen_body result ≡ told (header_questions at s.now) (body_in at s.now) }
{
    let elements = Elements::of(s, at).ok_or(wrong(at))?;
    let end = elements.end();
    let found = walk(elements)?;
    let ports = found.ports.ok_or(wrong(at))?;
    let user = Part {
        place: end,
        octets: &s[end..],
    };
    Ok(Body {
        header: at,
        ports,
        segment: found.segment,
        user,
    })
}
