// The fields of a text: their words, and the ranges of their numbers.
use manners::field;
use std::fmt;

// As a text names them. manners has its own, by what one number of a field is called, of which a text knows nothing.
#[derive(Clone, Copy, PartialEq, Eq)]
pub enum Field {
    Masks,
    Level,
    Mode,
    K,
    Seeds,
    Floor,
}

impl Field {
    // The field that a word names.
    pub fn from_word(word: &[u8]) -> Option<Field> {
        match word {
            b"masks" => Some(Field::Masks),
            b"level" => Some(Field::Level),
            b"mode" => Some(Field::Mode),
            b"k" => Some(Field::K),
            b"seeds" => Some(Field::Seeds),
            b"floor" => Some(Field::Floor),
            _ => None,
        }
    }

    // Whether the field's number is an f32, so that it may have a point.
    pub fn is_part(self) -> bool {
        matches!(self, Field::Level | Field::Floor)
    }

    // Whether a number is in the field's range, whatever the other fields have; D and the floor are judged by their patterns.
    pub fn in_range(self, x: u32) -> bool {
        match self {
            Field::Masks | Field::Seeds => matches!(x, 1..=1_048_575),
            Field::Level => matches!(x, 0x0080_0000..=0x7F7F_FFFF),
            Field::Mode => u8::try_from(x).is_ok_and(modes::is_mode),
            Field::K => matches!(x, 8 | 12 | 14),
            Field::Floor => x <= 0x7F7F_FFFF,
        }
    }
}

impl fmt::Display for Field {
    fn fmt<W: fmt::Write>(&self, f: &mut fmt::Formatter<W>) -> fmt::Result {
        f.write_str(match self {
            Field::Masks => "masks",
            Field::Level => "level",
            Field::Mode => "mode",
            Field::K => "k",
            Field::Seeds => "seeds",
            Field::Floor => "floor",
        })
    }
}

// The field as the programs' messages name its numbers.
impl From<Field> for field::Field {
    fn from(field: Field) -> field::Field {
        match field {
            Field::Masks => field::Field::Mask,
            Field::Level => field::Field::Level,
            Field::Mode => field::Field::Mode,
            Field::K => field::Field::K,
            Field::Seeds => field::Field::Seed,
            Field::Floor => field::Field::Floor,
        }
    }
}

// Whether a mode can send D, by its pattern: of 16QAM the triple is finite.
pub fn sends(mode: u8, level: u32) -> bool {
    modes::part_bits(mode) == 1 || level <= 0x7EAA_AAAA
}

// Whether the floor is at most half of D, by their patterns.
pub fn is_under(level: u32, floor: u32) -> bool {
    floor <= field::half(level)
}
