// Judging what a grid's cells decide to: the block's bits, unscrambling, the packets one by one, and what the outer code makes of them.
ghost use Rattle.std.specs.Prelude.{◌≡◌, ◌*◌, T, length};
ghost use Rattle.rules.specs.Bits.{row};
ghost use Rattle.rules.specs.Answers.{answer_of};
ghost use Rattle.rules.specs.Outer.{is_k, column};
ghost use Rattle.rules.specs.Modes.{symbols};
ghost use Rattle.rules.specs.Profile.{faultless};
ghost use Rattle.rules.specs.Block.{understood, in_block, Delivered, Judged};
ghost use Rattle.rules.specs.Pieces.{kept_bit};
ghost use Rattle.receiving.specs.Steps.{KeptBits};

use block::scramble;
use modes::block_bits;
use rules::{Profile, Receipt, Refusal, number_of};

// Restores the lost packets and writes the data, or answers why not.
fn deliver(k: u8, lost: u16, block: [u8; 1952], data: &mut [u8]) -> Result<(), Refusal>
    requires { T (is_k k) × (length «data».old ≡ 122 * k) }
    ensures { Delivered k lost (λ p j. column block j p) «data».old «data».new (answer_of result).number }
{
    let mut whole = block;
    outer::restore(k, lost, &mut whole)?;
    let n = data.len();
    data.copy_from_slice(&whole[..n]);
    Ok(())
}

// Judges a block's bits, still scrambled, and delivers the data.
fn judge(p: Profile, marks: u16, bits: [u8; 48000], data: &mut [u8]) -> Receipt
    requires { T (faultless p) × (length «data».old ≡ 122 * p.k) }
    ensures { Judged p marks (understood p (row bits)) «data».old «data».new result }
{
    let mut plain = bits;
    scramble(p, &mut plain);
    let v = turbo::judge_block(p.mode, marks, plain);
    let block = v.block;
    let reasons = v.reasons;
    Receipt {
        number: number_of(deliver(p.k, v.lost, block, data)),
        place: 0,
        lost: v.lost,
        reasons,
    }
}

// The block's bits, still scrambled, from the bytes of a whole grid's cells.
fn kept_bits(mode: u8, cells: &[u8]) -> [u8; 48000]
    requires { length cells.now ≡ 4096 * symbols mode }
    ensures { KeptBits mode cells.now result }
{
    let n = block_bits(mode);
    let mut bits = [0u8; 48000];
    hearing::read_block(mode, cells, &mut bits[..n]).unwrap();
    bits
}

// Judges what the cells of a whole grid decide to, and delivers the data.
pub(crate) fn judge_cells(p: Profile, marks: u16, cells: &[u8], data: &mut [u8]) -> Receipt
    requires { T (faultless p) × (length «data».old ≡ 122 * p.k) × (length cells.now ≡ 4096 * symbols p.mode) }
    ensures { Judged p marks (understood p (in_block p.mode (kept_bit p.mode (row cells.now)))) «data».old «data».new result }
{
    judge(p, marks, kept_bits(p.mode, cells), data)
}
