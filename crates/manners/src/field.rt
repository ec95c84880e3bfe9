// The words for a number of a profile that is outside its range.
use rules::Refusal;
use std::fmt;

// The fields of a profile whose numbers have a range. profile_text has its own, by the words of a text, and `profile` the parts of its bytes, to which tag and
// mode belong too: each names them in its own way, and what one has the other does not need.
#[derive(Clone, Copy, Debug, PartialEq, Eq)]
pub enum Field {
    Mask,
    Level,
    Mode,
    K,
    Seed,
    Floor,
}

// What one of a field's numbers is called.
impl fmt::Display for Field {
    fn fmt<W: fmt::Write>(&self, f: &mut fmt::Formatter<W>) -> fmt::Result {
        f.write_str(match self {
            Field::Mask => "mask",
            Field::Level => "level",
            Field::Mode => "mode",
            Field::K => "K",
            Field::Seed => "seed",
            Field::Floor => "floor",
        })
    }
}

// A refusal that names no field is handed back.
impl TryFrom<Refusal> for Field {
    type Error = Refusal;

    fn try_from(refusal: Refusal) -> Result<Field, Refusal> {
        match refusal {
            Refusal::Mask(_) => Ok(Field::Mask),
            Refusal::Level(_) => Ok(Field::Level),
            Refusal::Mode(_) => Ok(Field::Mode),
            Refusal::K(_) => Ok(Field::K),
            Refusal::Seed(_) => Ok(Field::Seed),
            Refusal::Floor(_) => Ok(Field::Floor),
            _ => Err(refusal),
        }
    }
}

impl Field {
    // The range of its numbers.
    pub fn range(self) -> &'static str {
        match self {
            Field::Mask | Field::Seed => "1 to 1048575",
            Field::Level => "0x00800000 to 0x7f7fffff (positive, finite and normal)",
            Field::Mode => "0 to 4",
            Field::K => "8, 12 and 14",
            Field::Floor => "0x00000000 to 0x7f7fffff (+0.0, or positive and finite)",
        }
    }

    // The index of its number that begins at a place of a profile's bytes.
    fn index_at(self, place: usize) -> usize {
        match self {
            Field::Mask => place.saturating_sub(MASKS_AT) / 4,
            Field::Seed => place.saturating_sub(SEEDS_AT) / 4,
            _ => 0,
        }
    }

    // Its number that some of a profile's bytes begin with: an f32 by its pattern.
    fn number_in(self, bytes: &[u8]) -> Option<u32> {
        match self {
            Field::Mode | Field::K => bytes.first().map(|b| u32::from(*b)),
            _ => bytes.first_chunk().map(|four| u32::from_be_bytes(*four)),
        }
    }

    // What is allowed in place of a number that was refused, in a profile with this level.
    fn allowed(self, number: u32, level: u32) -> Allowed {
        match self {
            Field::Level if is_level(number) => Allowed::Sendable,
            Field::Floor => Allowed::AtLevel(level),
            _ => Allowed::InField(self),
        }
    }
}

// What a number may be, in words.
#[derive(Clone, Copy, Debug, PartialEq, Eq)]
pub enum Allowed {
    // All of a field's range.
    InField(Field),
    // Of a level that is in its range, and too large for 16QAM.
    Sendable,
    // Of a floor, where the level is known, by its pattern.
    AtLevel(u32),
}

impl fmt::Display for Allowed {
    fn fmt<W: fmt::Write>(&self, f: &mut fmt::Formatter<W>) -> fmt::Result {
        match self {
            Allowed::InField(field) => write!(f, "{} are allowed", field.range()),
            Allowed::Sendable => f.write_str(
                "0x00800000 to 0x7eaaaaaa (so that 3 x level is finite) are allowed in modes 2 to 4",
            ),
            Allowed::AtLevel(level) => write!(
                f,
                "0x00000000 to {:#010x} (+0.0, or positive and at most half the level) are allowed",
                half(*level)
            ),
        }
    }
}

// A number outside its range, by its index in its field; its value as the caller shows it.
#[derive(Clone, Copy)]
pub struct Outside<V> {
    pub field: Field,
    pub index: usize,
    pub value: V,
    pub allowed: Allowed,
}

// Only masks and seeds have several numbers.
impl<V: fmt::Display> fmt::Display for Outside<V> {
    fn fmt<W: fmt::Write>(&self, f: &mut fmt::Formatter<W>) -> fmt::Result {
        let field = self.field;
        match field {
            Field::Mask | Field::Seed => write!(f, "{field} {}", self.index)?,
            _ => write!(f, "{field}")?,
        }
        write!(f, " is {}, {}", self.value, self.allowed)
    }
}

// A field's number as a message shows it: an f32 by its pattern.
#[derive(Clone, Copy)]
pub(crate) struct Shown {
    field: Field,
    number: u32,
}

impl fmt::Display for Shown {
    fn fmt<W: fmt::Write>(&self, f: &mut fmt::Formatter<W>) -> fmt::Result {
        match self.field {
            Field::Level | Field::Floor => write!(f, "{:#010x}", self.number),
            _ => write!(f, "{}", self.number),
        }
    }
}

impl Outside<Shown> {
    // Of the field's number that begins at a place of a profile's bytes; none where they end before the number does.
    pub(crate) fn in_bytes(field: Field, place: usize, bytes: &[u8]) -> Option<Outside<Shown>> {
        let number = field.number_in(bytes.get(place..)?)?;
        let [level] = numbers_at::<1>(bytes, LEVEL_AT);
        Some(Outside {
            field,
            index: field.index_at(place),
            value: Shown { field, number },
            allowed: field.allowed(number, level),
        })
    }
}

// The largest floor under a level in its range, both by their patterns: twice the floor is at most the level. Half a level has an exponent one less;
// where that is too small for a normal number, the pattern is a plain count, and its half is rounded down.
pub fn half(level: u32) -> u32 {
    if level < 0x0100_0000 {
        level / 2
    } else {
        level - 0x0080_0000
    }
}

// Whether a level is in its range, by its pattern: what refuses it is then the mode.
fn is_level(x: u32) -> bool {
    matches!(x, 0x0080_0000..=0x7F7F_FFFF)
}

// The places of fields in a profile's bytes.
pub(crate) const MASKS_AT: usize = 3;

const LEVEL_AT: usize = 38;

pub(crate) const SEEDS_AT: usize = 53;

// The numbers of four bytes each from a place of a profile on; zeros after the bytes' end. compare and receive walk their parts by the same loop: theirs
// fill a lent list of 4096, and one of them f32s, so one function would copy a list or take a closure for two lines.
pub(crate) fn numbers_at<const N: usize>(bytes: &[u8], place: usize) -> [u32; N] {
    let mut list = [0; N];
    let (fours, _) = bytes.get(place..).unwrap_or(&[]).as_chunks::<4>();
    for (x, four) in list.iter_mut().zip(fours) {
        *x = u32::from_be_bytes(*four);
    }
    list
}
