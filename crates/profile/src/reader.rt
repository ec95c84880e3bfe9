// The lent profile and a position in it, taken field by field. The functions over the struct are thin: the work is done by `take`, on the slice
// and the number.
ghost use Rattle.std.specs.Prelude.{◌≡◌};
ghost use Rattle.profile.specs.Fields.{place_of};
ghost use Rattle.profile.specs.Reader.{taken, step_of};

use super::fields::Field;
use super::header;
use rules::{Profile, Refusal};

// A lent profile, and a position in it.
#[derive(Clone, Copy)]
pub(crate) struct Reader<'a> {
    pub(crate) src: &'a [u8],
    pub(crate) at: usize,
}

// What taking a field gives: the position after the field, and the profile with its value.
#[derive(Clone, Copy)]
pub(crate) struct Taken {
    pub(crate) at: usize,
    pub(crate) profile: Profile,
}

// Takes a field at a position of a slice: its header, its value, its range. Document 01 names the form: the work is done on the slice and the number.
pub(crate) fn take(s: &[u8], at: usize, field: Field, p: Profile) -> Result<Taken, Refusal>
    ensures { step_of at p result ≡ taken (place_of field) p s.now at }
{
    let due = field.due(p);
    header::judge(s, at, field.tag(), due)?;
    let next = at + 3 + due;
    let profile = field.with_value(p, &s[at + 3..next]);
    field.fault(at, profile)?;
    Ok(Taken { at: next, profile })
}

impl<'a> Reader<'a> {
    // At the start of a profile.
    pub(crate) fn new(src: &'a [u8]) -> Reader<'a>
        ensures { (result.src ≡ src.entry) × (result.at ≡ 0) }
    {
        Reader { src, at: 0 }
    }

    // At another position of the same profile.
    pub(crate) fn moved(self, at: usize) -> Reader<'a>
        ensures { (result.src ≡ self.entry.src) × (result.at ≡ at) }
    {
        Reader { at, ..self }
    }

    // Takes a field where the reader stands.
    pub(crate) fn next(self, field: Field, p: Profile) -> Result<Taken, Refusal>
        ensures { step_of self.entry.at p result ≡ taken (place_of field) p self.entry.src.now self.entry.at }
    {
        take(self.src, self.at, field, p)
    }
}
