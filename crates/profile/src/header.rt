// The header of a field, judged at a position before its value is read, and stored; and what stands after the last field.
ghost use Rattle.std.specs.Prelude.{◌≡◌, [], ◌∷◌, ◌+◌, ◌*◌, ◌/◌, ◌%◌, ◌<◌, ◌≤◌, drop, length};
ghost use Rattle.rules.specs.Answers.{answer_of};
ghost use Rattle.rules.specs.Profile.{only};
ghost use Rattle.profile.specs.Fields.{heading, ending as endingOf};

use rules::Refusal;

// A length of two bytes.
fn pair(b0: u8, b1: u8) -> usize
    ensures { result ≡ b0 * 256 + b1 }
{
    u16::from_be_bytes([b0, b1]) as usize
}

// Whether a whole field with this tag and this length stands at a position; else the refusal: nothing left, header cut, tag, length, value cut. On the
// slice and the number, as document 01 names the form.
pub(crate) fn judge(s: &[u8], at: usize, tag: u8, due: usize) -> Result<(), Refusal>
    ensures { answer_of result ≡ only (heading tag due (drop at s.now)) }
{
    if s.len() <= at {
        return Err(Refusal::EndsBetweenFields);
    }
    let left = s.len() - at;
    let first = s[at];
    if left < 3 {
        return Err(Refusal::EndsInField);
    }
    if first != tag {
        return Err(Refusal::WrongTag);
    }
    if pair(s[at + 1], s[at + 2]) != due {
        return Err(Refusal::WrongLength);
    }
    if left - 3 < due {
        return Err(Refusal::EndsInField);
    }
    Ok(())
}

// Whether nothing stands after the last field; else the refusal of what does: fewer than three bytes, or a header. On the slice and
// the number too.
pub(crate) fn ending(s: &[u8], at: usize) -> Result<(), Refusal>
    ensures { answer_of result ≡ only (endingOf (drop at s.now)) }
{
    match s.len().saturating_sub(at) {
        0 => Ok(()),
        1 | 2 => Err(Refusal::EndsInField),
        _ => Err(Refusal::WrongTag),
    }
}

// A field's tag and length, stored in the three bytes of its header.
pub(crate) fn put(s: &mut [u8], tag: u8, due: usize)
    requires { (length s.old ≡ 3) × (due < 65536) }
    ensures { s.new ≡ tag ∷ due / 256 ∷ due % 256 ∷ [] }
{
    let length = (due as u16).to_be_bytes();
    s.copy_from_slice(&[tag, length[0], length[1]]);
}
