// What sending and receiving share: the refusals that come first, and a whole block's scrambling.
#![tactic(auto)]

ghost use Rattle.std.specs.Prelude.{◌≡◌, ◌*◌, ◌≤◌, length};
ghost use Rattle.rules.specs.Bits.{row};
ghost use Rattle.rules.specs.Answers.{answer_of};
ghost use Rattle.rules.specs.Profile.{only};
ghost use Rattle.rules.specs.Modes.{slot_bits};
ghost use Rattle.rules.specs.Block as rule;
ghost use Rattle.laws.specs.Holds.{Holds};
ghost use Rattle.block.specs.Steps.{held, scrambled_row};

use rules::{Profile, Refusal};

// The data are K packets long, and both lists hold so many cells; else the refusal, the first that fits.
fn lengths(k: u8, bytes: usize, firsts: usize, seconds: usize, cells: usize) -> Result<(), Refusal>
    ensures { answer_of result ≡ only (rule.lengths k bytes firsts seconds cells) }
{
    if bytes != 122 * (k as usize) {
        return Err(Refusal::WrongData);
    }
    if firsts != cells || seconds != cells {
        return Err(Refusal::WrongCells);
    }
    Ok(())
}

// What is at fault in the profile, then in the lengths: the first that fits.
pub fn early(
    p: Profile,
    bytes: usize,
    firsts: usize,
    seconds: usize,
    cells: usize,
) -> Result<(), Refusal>
    ensures { answer_of result ≡ rule.early p bytes firsts seconds cells }
{
    profile::fault(p)?;
    lengths(p.k, bytes, firsts, seconds, cells)
}

// How many slots are scrambled among so many bits: all of a block, or none where the block isn't there whole.
fn slots_in(mode: u8, bits: usize) -> usize
    ensures { (slot_bits mode * result ≡ held mode bits) × (slot_bits mode * result ≤ bits) × (result ≤ 48) }
{
    if bits < modes::block_bits(mode) {
        0
    } else {
        modes::slot_count(mode)
    }
}

// The bits of each slot, scrambled in place; of scrambled bits, the scrambling taken off again. Those past the block's stay, and all of them where the
// block isn't there whole.
pub fn scramble(p: Profile, bits: &mut [u8])
    ensures { Holds 0 (length bits.old) (scrambled_row (slot_bits p.mode) p.seeds p.masks
        (held p.mode (length bits.old)) (row bits.old)) bits.new }
{
    let n = slots_in(p.mode, bits.len());
    let b = modes::slot_bits(p.mode);
    // t is a slot's number: its place in the seeds, in the masks and in the bits.
    for t in 0..n {
        let at = b * t;
        slots::scramble(p.seeds[t], p.masks[1 + t % 7], &mut bits[at..at + b]);
    }
}
