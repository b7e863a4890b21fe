ghost use Rattle.std.specs.Prelude.{◌≡◌};
ghost use Rattle.std.specs.List.{flat_map};
ghost use Rattle.terms.specs.Buffer.{answer_of, left_in};

use terms::refusal::Refusal;

// Some parts, one behind the other, at the head of a buffer.
pub(crate) fn write_all(parts: &[&[u8]], out: &mut [u8]) -> Result<usize, Refusal>
    ensures answer { result ≡ answer_of (flat_map (λ part. part.now) parts.now) out.old }
    ensures after { out.new ≡ left_in (flat_map (λ part. part.now) parts.now) out.old }
{
    let mut room = out.len();
    for part in parts {
        room = room.checked_sub(part.len()).ok_or(Refusal::Buffer)?;
    }
    // Counted beside the loop: where the next part would go is, in the end, the answer.
    let mut at = 0;
    for part in parts {
        let end = at + part.len();
        out[at..end].copy_from_slice(part);
        at = end;
    }
    Ok(at)
}
