// How a line says rows: a short one digit by digit, a long one by its check word.
ghost use Rattle.std.specs.Prelude.{◌<◌, ◌≤◌, length};

use std::fmt;

// The check word of bits.
#[derive(Drop)]
pub struct CheckWord<'a>(pub &'a [u8]);

impl fmt::Display for CheckWord<'_> {
    fn fmt<W: fmt::Write>(&self, f: &mut fmt::Formatter<W>) -> fmt::Result {
        if self.0.iter().all(|bit| *bit <= 1) {
            let word = packet::check_of(self.0);
            write!(f, "{word:04x}")
        } else {
            f.write_str("no bits")
        }
    }
}

// Bits, doubtful ones too.
#[derive(Drop)]
pub struct Digits<'a>(pub &'a [u8]);

impl fmt::Display for Digits<'_> {
    fn fmt<W: fmt::Write>(&self, f: &mut fmt::Formatter<W>) -> fmt::Result {
        for bit in self.0 {
            match bit {
                0..=2 => write!(f, "{bit}")?,
                _ => f.write_str("?")?,
            }
        }
        Ok(())
    }
}

// Bytes, a blank before each.
#[derive(Drop)]
pub struct Bytes<'a>(pub &'a [u8]);

impl fmt::Display for Bytes<'_> {
    fn fmt<W: fmt::Write>(&self, f: &mut fmt::Formatter<W>) -> fmt::Result {
        for byte in self.0 {
            write!(f, " {byte:02x}")?;
        }
        Ok(())
    }
}

// The lowest bit comes last.
fn put_number(n: u16, bits: &mut [u8]) {
    let mut rest = n;
    for bit in bits.iter_mut().rev() {
        *bit = (rest % 2) as u8;
        rest /= 2;
    }
}

// The numbers' bits, so many of each.
pub fn put_bits<T: Copy + Into<u16>>(width: usize, numbers: &[T], bits: &mut [u8])
    requires { 0 < width }
{
    for (part, n) in bits.chunks_exact_mut(width).zip(numbers) {
        put_number((*n).into(), part);
    }
}

// The check word of bytes.
pub fn word_of(bytes: &[u8]) -> u16
    requires { length bytes.now ≤ 4096 }
{
    let mut room = [0u8; 32768];
    let bits = &mut room[..8 * bytes.len()];
    put_bits(8, bytes, bits);
    packet::check_of(bits)
}
