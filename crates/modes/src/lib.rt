// The figures of a transmission mode. Kept as a number, and no enum: the contracts speak of every number, and one that is no mode counts as 1.
#![tactic(auto)]

ghost use Rattle.std.specs.Prelude.{◌≡◌, ◌*◌, ◌<◌, ◌≤◌};
ghost use Rattle.rules.specs.Modes.{is_mode, part_bits, slot_bits, packet_bits, slots, symbols};
ghost use Rattle.rules.specs.Modes as rule;
ghost use Rattle.modes.specs.Counted as counting;

use rules::Rate;

pub fn is_mode(mode: u8) -> bool
    ensures { result ≡ is_mode mode }
{
    mode < 5
}

// The mode that a number counts as.
fn counted(mode: u8) -> usize
    ensures { (result ≡ counting.counted mode) × (result < 5) }
{
    if is_mode(mode) { usize::from(mode) } else { 1 }
}

pub fn rate(mode: u8) -> Rate
    ensures { result ≡ rule.rate mode }
{
    match counted(mode) {
        0 | 2 => Rate::Third,
        4 => Rate::TwoThirds,
        _ => Rate::Half,
    }
}

// How many bits each of a point's two parts has.
pub fn part_bits(mode: u8) -> usize
    ensures { (result ≡ part_bits mode) × (1 ≤ result) × (result ≤ 2) }
{
    if counted(mode) < 2 { 1 } else { 2 }
}

// How many bits a slot has.
pub fn slot_bits(mode: u8) -> usize
    ensures { (result ≡ slot_bits mode) × (1000 ≤ result) × (result ≤ 2000) }
{
    1000 * part_bits(mode)
}

// How many bits a packet has.
pub fn packet_bits(mode: u8) -> usize
    ensures { (result ≡ packet_bits mode) × (1500 ≤ result) × (result ≤ 3000) }
{
    match rate(mode) {
        Rate::Half => 2000,
        Rate::Third => 3000,
        Rate::TwoThirds => 1500,
    }
}

// How many slots a block has, and how many seeds.
pub fn slot_count(mode: u8) -> usize
    ensures { (result ≡ slots mode) × (1 ≤ result) × (result ≤ 48) }
{
    16 * packet_bits(mode) / slot_bits(mode)
}

// How many symbols a grid has.
pub fn symbol_count(mode: u8) -> usize
    ensures { (result ≡ symbols mode) × (1 ≤ result) × (result ≤ 7) }
{
    (slot_count(mode) + 6) / 7
}

// How many bits a block has.
pub fn block_bits(mode: u8) -> usize
    ensures { (result ≡ slot_bits mode * slots mode) × (result ≤ 48000) }
{
    16 * packet_bits(mode)
}
