// What is wrong with a text, in plain words.
use super::fields::Field;
use super::number::NumberError;
use super::show::Part;
use manners::field::{Allowed, Outside};
use manners::twin::Twins;
use manners::words::Foreign;
use std::fmt;

// How many modes there are.
const MODES: u8 = 5;

// How many seeds a mode has.
#[derive(Clone, Copy)]
struct InMode(u8);

impl fmt::Display for InMode {
    fn fmt<W: fmt::Write>(&self, f: &mut fmt::Formatter<W>) -> fmt::Result {
        let mode = self.0;
        write!(f, "{} in mode {mode}", modes::slot_count(mode))
    }
}

// How many numbers of a field are due: of the seeds by the mode, where the text gives it.
#[derive(Clone, Copy)]
pub enum Due {
    Count(usize),
    InMode(u8),
    InAnyMode,
}

impl Due {
    // In any mode at most.
    pub fn most(self) -> usize {
        match self {
            Due::Count(n) => n,
            Due::InMode(mode) => modes::slot_count(mode),
            Due::InAnyMode => 48,
        }
    }
}

impl fmt::Display for Due {
    fn fmt<W: fmt::Write>(&self, f: &mut fmt::Formatter<W>) -> fmt::Result {
        match self {
            Due::Count(n) => write!(f, "{n}"),
            Due::InMode(mode) => write!(f, "{}", InMode(*mode)),
            Due::InAnyMode => {
                write!(f, "{}", InMode(0))?;
                for mode in 1..MODES {
                    write!(f, ", {}", InMode(mode))?;
                }
                Ok(())
            }
        }
    }
}

// At most so many bytes of a word are shown.
const SHOWN: usize = 40;

// A word of a text, or its start.
#[derive(Clone, Copy)]
pub struct Word<'a>(pub &'a [u8]);

impl fmt::Display for Word<'_> {
    fn fmt<W: fmt::Write>(&self, f: &mut fmt::Formatter<W>) -> fmt::Result {
        let shown = self.0.get(..SHOWN).unwrap_or(self.0);
        write!(f, "{}", Foreign(shown))
    }
}

// A mistake in a text.
#[derive(Clone, Copy)]
pub enum Mistake<'a> {
    // The word is no field's.
    Unknown(Word<'a>),
    // The word is no number.
    Unreadable(Field, Word<'a>, NumberError),
    // The word is outside its field's range; before it the field had so many numbers.
    OutOfRange(Field, Word<'a>, usize),
    // There are so many numbers.
    TooMany(Field, usize, Due),
    TooFew(Field, usize, Due),
    Empty(Field),
    Twice(Field),
    Missing(Field),
    // The mode can't send a level of this pattern.
    Unsendable(u32),
    // The floor is above half the level, by their patterns.
    AboveHalf { level: u32, floor: u32 },
    // Found by profile::write, last of all.
    Repeated(Twins),
    LongText,
}

impl fmt::Display for Mistake<'_> {
    fn fmt<W: fmt::Write>(&self, f: &mut fmt::Formatter<W>) -> fmt::Result {
        match self {
            Mistake::Unknown(word) => write!(
                f,
                "\"{word}\" is an unknown word, the words are masks, level, mode, k, seeds and floor"
            ),
            Mistake::Unreadable(field, word, e) => {
                write!(f, "{field}: \"{word}\" {e}")?;
                f.write_str(if field.is_part() {
                    ""
                } else {
                    ", with no point"
                })
            }
            Mistake::OutOfRange(field, word, index) => write!(
                f,
                "{}",
                outside_range(*field, *word, *index)
            ),
            Mistake::TooMany(field, n, due) => {
                write!(
                    f,
                    "{field}: too many numbers, there are {n} and there should be {due}"
                )
            }
            Mistake::TooFew(field, n, due) => {
                write!(
                    f,
                    "{field}: too few numbers, there are {n} and there should be {due}"
                )
            }
            Mistake::Empty(field) => write!(f, "{field}: no number in this line"),
            Mistake::Twice(field) => write!(f, "{field}: given twice"),
            Mistake::Missing(field) => write!(f, "{field}: missing"),
            Mistake::Unsendable(level) => write!(f, "{}", unsendable(*level)),
            Mistake::AboveHalf { level, floor } => write!(f, "{}", above_half(*level, *floor)),
            Mistake::Repeated(twins) => write!(f, "{twins}"),
            Mistake::LongText => write!(f, "longer than 16384 bytes"),
        }
    }
}

fn outside_range(field: Field, word: Word<'_>, index: usize) -> Outside<Word<'_>> {
    let field = field.into();
    Outside {
        field,
        index,
        value: word,
        allowed: Allowed::InField(field),
    }
}

// No decimal number of a text is so large, so the level is shown by its pattern.
fn unsendable(level: u32) -> Outside<Pattern> {
    Outside {
        field: Field::Level.into(),
        index: 0,
        value: Pattern(level),
        allowed: Allowed::Sendable,
    }
}

// The floor as `show` has it.
fn above_half(level: u32, floor: u32) -> Outside<Part> {
    Outside {
        field: Field::Floor.into(),
        index: 0,
        value: Part(parts::part_of_bits(floor)),
        allowed: Allowed::AtLevel(level),
    }
}

// The pattern of an f32.
#[derive(Clone, Copy)]
pub struct Pattern(pub u32);

impl fmt::Display for Pattern {
    fn fmt<W: fmt::Write>(&self, f: &mut fmt::Formatter<W>) -> fmt::Result {
        write!(f, "{:#010x}", self.0)
    }
}

// A text's first mistake, and the line that it is in, where it is in one.
#[derive(Clone, Copy)]
pub struct Refused<'a> {
    pub line: Option<usize>,
    pub mistake: Mistake<'a>,
}

impl<'a> Refused<'a> {
    // A mistake that is in no line by itself.
    pub fn in_text(mistake: Mistake<'a>) -> Refused<'a> {
        Refused {
            line: None,
            mistake,
        }
    }
}

impl fmt::Display for Refused<'_> {
    fn fmt<W: fmt::Write>(&self, f: &mut fmt::Formatter<W>) -> fmt::Result {
        match self.line {
            Some(n) => write!(f, "line {n}: {}", self.mistake),
            None => write!(f, "text: {}", self.mistake),
        }
    }
}
