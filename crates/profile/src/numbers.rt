// Numbers in bytes, high byte first: read from a field's value, and stored.
ghost use Rattle.std.specs.Prelude.{◌≡◌, ◌++◌, ◌+◌, ◌-◌, ◌*◌, ◌≤◌, length, take, drop, replicate};
ghost use Rattle.std.specs.Float.Ieee as Ieee;
ghost use Rattle.std.specs.Float.{binary32};
ghost use Rattle.rules.specs.Profile.{all_bytes, number, word_bytes, words as words_of};
ghost use Rattle.rules.specs.Modes.{slots as slots_of};

use std::array;

// The number of four bytes.
fn word(s: &[u8]) -> u32
    requires { length s.now ≡ 4 }
    ensures { result ≡ number s.now }
{
    u32::from_be_bytes([s[0], s[1], s[2], s[3]])
}

// The first n numbers of four bytes each, and zeros after them.
fn words<const N: usize>(s: &[u8], n: usize) -> [u32; N]
    requires { (4 * n ≤ length s.now) × (n ≤ N) }
    ensures { result ≡ words_of n s.now ++ replicate (N - n) 0 }
{
    array::from_fn(|i| if i < n { word(&s[4 * i..4 * i + 4]) } else { 0 })
}

// The masks in field 1's value.
pub(crate) fn masks_of(s: &[u8]) -> [u32; 8]
    requires { length s.now ≡ 32 }
    ensures { result ≡ words_of 8 s.now }
{
    words(s, 8)
}

// The seeds in field 5's value, and zeros after them.
pub(crate) fn seeds_of(mode: u8, s: &[u8]) -> [u32; 48]
    requires { length s.now ≡ 4 * slots_of mode }
    ensures { result ≡ words_of (slots_of mode) s.now ++ replicate (48 - slots_of mode) 0 }
{
    words(s, modes::slot_count(mode))
}

// The number in a value of one byte.
pub(crate) fn byte_of(s: &[u8]) -> u8
    requires { length s.now ≡ 1 }
    ensures { result ≡ number s.now }
{
    s[0]
}

// The f32 in a value of four bytes, D or the floor.
pub(crate) fn part_of(s: &[u8]) -> f32
    requires { length s.now ≡ 4 }
    ensures { result ≡ Ieee.of_bits binary32 (number s.now) }
{
    parts::part_of_bits(word(s))
}

// A number, stored in its four bytes.
pub(crate) fn put_word(s: &mut [u8], x: u32)
    requires { length s.old ≡ 4 }
    ensures { s.new ≡ word_bytes x }
{
    s.copy_from_slice(&x.to_be_bytes());
}

// Numbers, each stored in its four bytes. Their places are counted, since nothing is known of what is written through chunks_exact_mut.
pub(crate) fn put_words(s: &mut [u8], l: &[u32])
    requires { length s.old ≡ 4 * length l.now }
    ensures { s.new ≡ all_bytes l.now }
{
    for (i, x) in l.iter().enumerate() {
        put_word(&mut s[4 * i..4 * i + 4], *x);
    }
}
