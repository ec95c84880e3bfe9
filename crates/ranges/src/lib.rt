// The ranges of a profile's numbers: whether a number is in its own, and how many of several stand before the first that isn't.
#![tactic(auto)]

ghost use Rattle.std.specs.Prelude.{◌≡◌, ◌++◌, ◌≤◌, eqb, length, take, drop};
ghost use Rattle.rules.specs.Outer.{is_k};
ghost use Rattle.rules.specs.Profile.{each, floor_under, in20, is_floor, is_level, sends as sendsOf};
ghost use Rattle.rules.specs.Modes.{slots as slots_of};
ghost use Rattle.ranges.specs.Ranges.{between, passed};

use std::ops::Range;

// The smallest normal and the largest finite f32.
const LEAST: f32 = 1.17549435e-38;

const MOST: f32 = 3.40282347e38;

// Masks and seeds stay below this.
const LIMIT: u32 = 1_048_576;

// How many numbers stand before the first that is out of the range; all of them where none is.
fn passing(l: &[u32], range: Range<u32>) -> usize
    ensures { (result ≡ passed (each 4 (between range.start range.end) l.now)) × (result ≤ length l.now) }
{
    l.iter().take_while(|x| range.contains(*x)).count()
}

// Field 1: how many masks stand before the first faulty one.
pub fn masks_passing(masks: [u32; 8]) -> usize
    ensures { (result ≡ passed (each 4 in20 masks)) × (result ≤ 8) }
{
    passing(&masks, 1..LIMIT)
}

// Field 2: D is positive, finite and normal; a NaN fails both tests.
pub fn level_good(level: f32) -> bool
    ensures { result ≡ is_level level }
{
    // Tried: of floats `contains` speaks by `partial_cmp`, and the check does not find that this is the rule's two tests.
    LEAST <= level && level <= MOST
}

// Whether a mode can send D: QPSK any, 16QAM one whose triple, a single rounded multiplication, is finite.
pub fn sends(mode: u8, level: f32) -> bool
    ensures { result ≡ sendsOf mode level }
{
    modes::part_bits(mode) == 1 || 3.0 * level <= MOST
}

// Field 4.
pub fn k_good(k: u8) -> bool
    ensures { result ≡ is_k k }
{
    k == 8 || k == 12 || k == 14
}

// Field 5: how many seeds stand before the first faulty one; as many as the mode has slots are in use, and zeros after them.
pub fn seeds_passing(mode: u8, seeds: [u32; 48]) -> usize
    ensures { (result ≡ passed (each 4 in20 (take (slots_of mode) seeds) ++ each 4 (eqb 0) (drop (slots_of mode) seeds))) × (result ≤ 48) }
{
    let n = modes::slot_count(mode);
    let used = passing(&seeds[..n], 1..LIMIT);
    if used < n {
        return used;
    }
    n + passing(&seeds[n..], 0..1)
}

// Whether a floor is +0.0 (whose bits are zero; -0.0's aren't), or positive and finite.
fn is_floor(floor: f32) -> bool
    ensures { result ≡ is_floor floor }
{
    // Two tests, since a range holds its start, and 0.0 is out here.
    parts::bits_of_part(floor) == 0 || (0.0 < floor && floor <= MOST)
}

// Field 6: such a floor, and twice it is at most D; a NaN fails every test.
pub fn floor_good(level: f32, floor: f32) -> bool
    ensures { result ≡ floor_under level floor }
{
    is_floor(floor) && floor + floor <= level
}
