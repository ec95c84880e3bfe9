// A profile while its text is read.
ghost use Rattle.std.specs.Prelude.{◌≤◌};

use super::fields::Field;
use super::say::{Due, Mistake, Refused, Word};
use super::scan::{Lines, Words};
use super::{fields, number};
use rules::Profile;
use std::cmp::Ordering;

// The longest text.
pub const MOST: usize = 16_384;

// Reads a text, line by line, up to the first mistake.
pub fn read(text: &[u8]) -> Result<Profile, Refused<'_>> {
    if MOST < text.len() {
        return Err(Refused::in_text(Mistake::LongText));
    }
    let mut draft = Draft::empty();
    for (n, line) in (1..).zip(Lines::of(text)) {
        draft.add_line(line).map_err(|mistake| Refused {
            line: Some(n),
            mistake,
        })?;
    }
    draft.profile().map_err(Refused::in_text)
}

// The first numbers of a field, and how many of its numbers there are: those after the most that it has are only counted. The count stands beside the list
// and is no slice's length, since it goes on past it: a message names it.
#[derive(Clone, Copy)]
struct Numbers<const N: usize> {
    values: [u32; N],
    count: usize,
}

impl<const N: usize> Numbers<N> {
    fn none() -> Numbers<N> {
        Numbers {
            values: [0u32; N],
            count: 0,
        }
    }

    fn push(&mut self, x: u32) {
        if let Some(place) = self.values.get_mut(self.count) {
            *place = x;
        }
        self.count = self.count.saturating_add(1);
    }

    // Puts a line's numbers behind those that are there.
    fn read<'a>(&mut self, line: FieldLine<'a>) -> Result<(), Mistake<'a>> {
        let field = line.field;
        for word in line.words {
            let x = judged(field, self.count, word)?;
            self.push(x);
        }
        Ok(())
    }

    // The numbers of a field that has N of them.
    fn all<'a>(self, field: Field) -> Result<[u32; N], Mistake<'a>> {
        let n = self.count;
        match n.cmp(&N) {
            Ordering::Less => Err(Mistake::TooFew(field, n, Due::Count(N))),
            Ordering::Equal => Ok(self.values),
            Ordering::Greater => Err(Mistake::TooMany(field, n, Due::Count(N))),
        }
    }
}

// A word as a number of a field, of which there are so many before it.
fn judged(field: Field, index: usize, word: &[u8]) -> Result<u32, Mistake<'_>> {
    let number = if field.is_part() {
        number::part(word)
    } else {
        number::whole(word)
    };
    let x = number.map_err(|e| Mistake::Unreadable(field, Word(word), e))?;
    if field.in_range(x) {
        Ok(x)
    } else {
        Err(Mistake::OutOfRange(field, Word(word), index))
    }
}

// A line of a field, with the words of its numbers.
#[derive(Drop)]
struct FieldLine<'a> {
    field: Field,
    words: Words<'a>,
}

impl<'a> FieldLine<'a> {
    // A line may have no words at all.
    fn of(line: &'a [u8]) -> Result<Option<FieldLine<'a>>, Mistake<'a>> {
        let mut words = Words::of(line);
        let Some(word) = words.next() else {
            return Ok(None);
        };
        let field = Field::from_word(word).ok_or(Mistake::Unknown(Word(word)))?;
        Ok(Some(FieldLine { field, words }))
    }

    // The numbers of a field that has N in one line.
    fn all<const N: usize>(self) -> Result<[u32; N], Mistake<'a>>
        requires { N ≤ 48 }
    {
        let field = self.field;
        let mut numbers = Numbers::none();
        numbers.read(self)?;
        numbers.all(field)
    }

    // The number of a field that has one.
    fn only(self) -> Result<u32, Mistake<'a>> {
        let [x]: [u32; 1] = self.all()?;
        Ok(x)
    }

    // That of a mode or a K: what is in their ranges is a byte. A `try_from` would need a way out that is never taken.
    fn byte(self) -> Result<u8, Mistake<'a>> {
        let x = self.only()?;
        Ok((x & 0xff) as u8)
    }
}

// What the text has given so far: D and the floor by their patterns.
#[derive(Clone, Copy)]
struct Draft {
    masks: Option<[u32; 8]>,
    level: Option<u32>,
    mode: Option<u8>,
    k: Option<u8>,
    seeds: Numbers<48>,
    floor: Option<u32>,
}

impl Draft {
    fn empty() -> Draft {
        Draft {
            masks: None,
            level: None,
            mode: None,
            k: None,
            seeds: Numbers::none(),
            floor: None,
        }
    }

    // Whether a field is there that stands in one line: only seeds go on in another.
    fn is_full(&self, field: Field) -> bool {
        match field {
            Field::Masks => self.masks.is_some(),
            Field::Level => self.level.is_some(),
            Field::Mode => self.mode.is_some(),
            Field::K => self.k.is_some(),
            Field::Seeds => false,
            Field::Floor => self.floor.is_some(),
        }
    }

    // Takes in a line.
    fn add_line<'a>(&mut self, line: &'a [u8]) -> Result<(), Mistake<'a>> {
        let Some(line) = FieldLine::of(line)? else {
            return Ok(());
        };
        if self.is_full(line.field) {
            return Err(Mistake::Twice(line.field));
        }
        self.add(line)
    }

    // Takes in a line of a field that is not full.
    fn add<'a>(&mut self, line: FieldLine<'a>) -> Result<(), Mistake<'a>> {
        match line.field {
            Field::Masks => self.masks = Some(line.all()?),
            Field::Level => self.level = Some(line.only()?),
            Field::Mode => self.mode = Some(line.byte()?),
            Field::K => self.k = Some(line.byte()?),
            Field::Seeds => self.add_seeds(line)?,
            Field::Floor => self.floor = Some(line.only()?),
        }
        Ok(())
    }

    // Takes in a line of seeds.
    fn add_seeds<'a>(&mut self, line: FieldLine<'a>) -> Result<(), Mistake<'a>> {
        let before = self.seeds.count;
        self.seeds.read(line)?;
        if self.seeds.count == before {
            return Err(Mistake::Empty(Field::Seeds));
        }
        Ok(())
    }

    // How many seeds there should be.
    fn due_seeds(&self) -> Due {
        match self.mode {
            Some(mode) => Due::InMode(mode),
            None => Due::InAnyMode,
        }
    }

    // The profile, at the end of the text: first what is too much is a mistake, then what is missing, then what is too little, then a level that the mode
    // can't send, then a floor above half the level.
    fn profile<'a>(self) -> Result<Profile, Mistake<'a>> {
        let count = self.seeds.count;
        let due = self.due_seeds();
        if due.most() < count {
            return Err(Mistake::TooMany(Field::Seeds, count, due));
        }
        let masks = self.masks.ok_or(Mistake::Missing(Field::Masks))?;
        let level = self.level.ok_or(Mistake::Missing(Field::Level))?;
        let mode = self.mode.ok_or(Mistake::Missing(Field::Mode))?;
        let k = self.k.ok_or(Mistake::Missing(Field::K))?;
        if count == 0 {
            return Err(Mistake::Missing(Field::Seeds));
        }
        let floor = self.floor.ok_or(Mistake::Missing(Field::Floor))?;
        if count < due.most() {
            return Err(Mistake::TooFew(Field::Seeds, count, due));
        }
        if !fields::sends(mode, level) {
            return Err(Mistake::Unsendable(level));
        }
        if !fields::is_under(level, floor) {
            return Err(Mistake::AboveHalf { level, floor });
        }
        Ok(Profile {
            masks,
            level: parts::part_of_bits(level),
            mode,
            k,
            seeds: self.seeds.values,
            floor: parts::part_of_bits(floor),
        })
    }
}
