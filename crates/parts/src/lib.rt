// A part is an f32; its pattern, and four bytes, high byte first, for every pattern.
#![tactic(auto)]

ghost use Rattle.std.specs.Prelude.{◌≡◌, ◌+◌, ◌*◌};
ghost use Rattle.std.specs.Float.Ieee as Ieee;
ghost use Rattle.std.specs.Float.{binary32};
ghost use Rattle.rules.specs.Profile.{word_bytes};

// An f32 from its pattern, for every pattern.
pub fn part_of_bits(bits: u32) -> f32
    ensures { result ≡ Ieee.of_bits binary32 bits }
{
    // std's `from_bits` asks that the pattern is no NaN's; here every pattern is answered.
    if bits % 0x8000_0000 > 0x7F80_0000 {
        return f32::NAN;
    }
    f32::from_bits(bits)
}

// An f32 from four bytes, high byte first.
pub fn part_of_bytes(b0: u8, b1: u8, b2: u8, b3: u8) -> f32
    ensures { result ≡ Ieee.of_bits binary32 (((b0 * 256 + b1) * 256 + b2) * 256 + b3) }
{
    part_of_bits(u32::from_be_bytes([b0, b1, b2, b3]))
}

// The pattern of an f32; a NaN's is the one with only the highest of its digits set.
pub fn bits_of_part(part: f32) -> u32
    ensures { result ≡ Ieee.to_bits binary32 part }
{
    // std's `to_bits` asks that there is no NaN.
    if part.is_nan() {
        return 0x7FC0_0000;
    }
    part.to_bits()
}

// Four bytes, high byte first.
pub fn bytes_of_part(part: f32) -> [u8; 4]
    ensures { result ≡ word_bytes (Ieee.to_bits binary32 part) }
{
    bits_of_part(part).to_be_bytes()
}
