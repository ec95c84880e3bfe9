// Rows by formula, flipped bits, and how far two rows differ.
ghost use Rattle.std.specs.Prelude.{◌<◌, ◌≤◌};

use std::array;

fn formula(i: usize) -> u8
    requires { i < 4096 }
{
    ((i * i * 7 + i * 13 + 5) % 251) as u8
}

// What most inputs are.
pub fn by_formula<const N: usize>() -> [u8; N]
    requires { N ≤ 4096 }
{
    array::from_fn(|i| formula(i))
}

// Flips one bit; past the row's end there is none.
pub fn flip(bits: &mut [u8], at: usize) {
    if let Some(bit) = bits.get_mut(at) {
        *bit ^= 1;
    }
}

// In how many places two rows differ.
pub fn differing(a: &[u8], b: &[u8]) -> usize {
    a.iter().zip(b).filter(|(x, y)| x != y).count()
}
