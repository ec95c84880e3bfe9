// Numbers as a text has them: whole ones, decimal or 0x and hexadecimal, and f32 values, as D, a decimal number or 0x and the pattern.
ghost use Rattle.std.specs.Prelude.{◌<◌, ◌≤◌};

use std::fmt;

// Why a word is no number: too many digits is only said of an f32.
#[derive(Clone, Copy)]
pub enum NumberError {
    NotNumber,
    TooLong,
}

impl fmt::Display for NumberError {
    fn fmt<W: fmt::Write>(&self, f: &mut fmt::Formatter<W>) -> fmt::Result {
        f.write_str(match self {
            NumberError::NotNumber => "is not a number, a plain decimal or 0x number is due",
            NumberError::TooLong => "has more than 7 digits, or more than 10 after the point",
        })
    }
}

// The number that some digits make after those of x, u32::MAX where it is larger; an error where a byte is no digit.
fn with_digits(x: u32, digits: &[u8], radix: u32) -> Result<u32, NumberError>
    requires low { 2 ≤ radix }
    requires high { radix ≤ 36 }
{
    let mut x = x;
    for b in digits {
        let digit = char::from(*b)
            .to_digit(radix)
            .ok_or(NumberError::NotNumber)?;
        x = x.saturating_mul(radix).saturating_add(digit);
    }
    Ok(x)
}

// The hexadecimal digits after 0x.
fn after_mark(word: &[u8]) -> Option<&[u8]> {
    match word {
        [b'0', b'x' | b'X', digits @ ..] if !digits.is_empty() => Some(digits),
        _ => None,
    }
}

// A whole number.
pub fn whole(word: &[u8]) -> Result<u32, NumberError> {
    match after_mark(word) {
        Some(digits) => with_digits(0, digits, 16),
        None => with_digits(0, word, 10),
    }
}

// The pattern of an f32.
pub fn part(word: &[u8]) -> Result<u32, NumberError> {
    match after_mark(word) {
        Some(digits) => with_digits(0, digits, 16),
        None => Ok(parts::bits_of_part(Decimal::from_text(word)?.value())),
    }
}

// What of a word stands before its first point, and what after it.
fn split_at_point(word: &[u8]) -> (&[u8], &[u8]) {
    match word.iter().position(|b| *b == b'.') {
        Some(p) => (&word[..p], &word[p + 1..]),
        None => (word, b""),
    }
}

// A decimal number: its digits, and how many of them stand after the point. Both the digits, as a whole number, and the power of ten are f32 exactly.
#[derive(Clone, Copy)]
pub struct Decimal {
    digits: u32,
    places: usize,
    ghost few_digits: { digits ≤ 9999999 },
    ghost few_places: { places ≤ 10 },
}

impl Decimal {
    // The most that the digits are, leading zeros aside.
    const MOST: u32 = 9_999_999;

    const PLACES: usize = 10;

    // Of a word that is some digits, with a point before, between or after them or with none.
    fn from_text(word: &[u8]) -> Result<Decimal, NumberError> {
        let (before, after) = split_at_point(word);
        if before.is_empty() && after.is_empty() {
            return Err(NumberError::NotNumber);
        }
        let digits = with_digits(with_digits(0, before, 10)?, after, 10)?;
        if Decimal::MOST < digits || Decimal::PLACES < after.len() {
            return Err(NumberError::TooLong);
        }
        Ok(Decimal {
            digits,
            places: after.len(),
        })
    }

    // 10 to the number of places.
    fn scale(self) -> u64
        ensures { 0 < result }
    {
        10u64.pow(self.places as u32)
    }

    // The f32 nearest to it, by one division of exact numbers.
    pub fn value(self) -> f32 {
        std::num::nearest_u32_to_f32(self.digits) / std::num::nearest_u64_to_f32(self.scale())
    }

    // The least with so many places that is at least x, by halving; the largest where none is.
    fn least_from(x: f32, places: usize) -> Decimal
        requires { places ≤ 10 }
    {
        let mut low: u32 = 0;
        let mut high = Decimal::MOST;
        while low < high {
            let digits = (low + high) / 2;
            if (Decimal { digits, places }).value() < x {
                low = digits + 1;
            } else {
                high = digits;
            }
        }
        Decimal {
            digits: low,
            places,
        }
    }

    // The one that is x, with as few places as there can be.
    pub fn exactly(x: f32) -> Option<Decimal> {
        (0..=Decimal::PLACES)
            .map(|places| Decimal::least_from(x, places))
            .find(|d| d.value() == x)
    }
}

impl fmt::Display for Decimal {
    fn fmt<W: fmt::Write>(&self, f: &mut fmt::Formatter<W>) -> fmt::Result {
        let digits = u64::from(self.digits);
        let places = self.places;
        if places == 0 {
            return write!(f, "{digits}");
        }
        let scale = self.scale();
        write!(f, "{}.{:0places$}", digits / scale, digits % scale)
    }
}
