// A profile as text.
use super::fields::Field;
use super::number::Decimal;
use super::say::Pattern;
use rules::Profile;
use std::fmt;

// So many seeds a line; the last one may have fewer.
const ROW: usize = 8;

// A field's line.
#[derive(Clone, Copy)]
struct Line<'a>(Field, &'a [u32]);

impl fmt::Display for Line<'_> {
    fn fmt<W: fmt::Write>(&self, f: &mut fmt::Formatter<W>) -> fmt::Result {
        write!(f, "{}", self.0)?;
        for x in self.1 {
            write!(f, " {x}")?;
        }
        writeln!(f)
    }
}

// An f32 as a decimal number that `make` turns into the same one, or else its pattern.
#[derive(Clone, Copy)]
pub struct Part(pub f32);

impl fmt::Display for Part {
    fn fmt<W: fmt::Write>(&self, f: &mut fmt::Formatter<W>) -> fmt::Result {
        match Decimal::exactly(self.0) {
            Some(number) => write!(f, "{number}"),
            None => write!(f, "{}", Pattern(parts::bits_of_part(self.0))),
        }
    }
}

// The text that `make` turns into the same profile.
#[derive(Clone, Copy)]
pub struct Text(pub Profile);

impl Text {
    // The seeds that the mode has.
    fn seeds(&self) -> &[u32] {
        &self.0.seeds[..modes::slot_count(self.0.mode)]
    }
}

impl fmt::Display for Text {
    fn fmt<W: fmt::Write>(&self, f: &mut fmt::Formatter<W>) -> fmt::Result {
        let p = &self.0;
        write!(f, "{}", Line(Field::Masks, &p.masks))?;
        writeln!(f, "{} {}", Field::Level, Part(p.level))?;
        writeln!(f, "{} {}", Field::Mode, p.mode)?;
        writeln!(f, "{} {}", Field::K, p.k)?;
        for row in self.seeds().chunks(ROW) {
            write!(f, "{}", Line(Field::Seeds, row))?;
        }
        writeln!(f, "{} {}", Field::Floor, Part(p.floor))
    }
}
