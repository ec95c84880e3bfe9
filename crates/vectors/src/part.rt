// Parts to be decided, by their patterns.
use std::fmt;
use std::ops::RangeInclusive;

pub const INFINITY: u32 = 0x7F80_0000;

pub const NAN: u32 = 0x7FC0_0000;

// The level of the points.
pub const LEVEL: u32 = 0x3F35_04F3;

// A part in a mode, at a level and a floor.
#[derive(Clone, Copy)]
pub struct Part {
    pub mode: u8,
    pub level: u32,
    pub floor: u32,
    pub bits: u32,
}

impl Part {
    // The part and the one of the other sign.
    pub fn both_signs(self) -> [Part; 2] {
        let other = Part {
            bits: self.bits ^ 0x8000_0000,
            ..self
        };
        [self, other]
    }
}

// Its pattern, what it decides to, and its pattern after a way through its bytes.
impl fmt::Display for Part {
    fn fmt<W: fmt::Write>(&self, f: &mut fmt::Formatter<W>) -> fmt::Result {
        let bits = self.bits;
        let part = parts::part_of_bits(bits);
        let level = parts::part_of_bits(self.level);
        let floor = parts::part_of_bits(self.floor);
        let decided = deciding::decide(self.mode, level, floor, part);
        write!(f, "{bits:08x} {decided} {:08x}", pattern(part))
    }
}

// After a way through the part's bytes.
pub fn pattern(part: f32) -> u32 {
    let [b0, b1, b2, b3] = parts::bytes_of_part(part);
    parts::bits_of_part(parts::part_of_bytes(b0, b1, b2, b3))
}

// An end of a range, which is finite, and the parts next to it; none is below zero.
pub fn beside(end: u32) -> RangeInclusive<u32> {
    let x = end % 0x8000_0000;
    x.saturating_sub(1)..=x + 1
}
