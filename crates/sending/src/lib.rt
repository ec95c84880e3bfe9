// Sending a block: its bits, and its cells.
#![tactic(auto)]

ghost use Rattle.std.specs.Prelude.{◌≡◌, ℕ, ◌+◌, ◌*◌, ◌/◌, ◌%◌, ◌<◌, T, length};
ghost use Rattle.rules.specs.Bits.{row};
ghost use Rattle.rules.specs.Answers.{answer_of};
ghost use Rattle.rules.specs.Outer.{is_k};
ghost use Rattle.rules.specs.Modes.{slots, slot_bits, symbols};
ghost use Rattle.rules.specs.Profile.{faultless};
ghost use Rattle.rules.specs.Block.{packet, sent_bit, SendRule, SendSymbolRule};
ghost use Rattle.sending.specs.Steps.{Grid};

use block::{early, scramble};
use modes::{block_bits, symbol_count};
use rules::{Profile, Refusal};

// The block's 16 packets of 122 bytes, packet after packet: the data, and its parity.
fn block_of(k: u8, data: &[u8]) -> [u8; 1952]
    requires { T (is_k k) × (length «data».now ≡ 122 * k) }
    ensures { (p j : ℕ) → p < 16 → j < 122 → row result (122 * p + j) ≡ packet k «data».now p j }
{
    let mut block = [0u8; 1952];
    block[..data.len()].copy_from_slice(data);
    outer::fill_parity(k, &mut block).unwrap();
    block
}

// The block's bits, scrambled, slot after slot.
fn sent_bits(p: Profile, data: &[u8]) -> [u8; 48000]
    requires { T (faultless p) × (length «data».now ≡ 122 * p.k) }
    ensures { (g : ℕ) → g < slot_bits p.mode * slots p.mode
        → row result g ≡ sent_bit p «data».now (g / slot_bits p.mode) (g % slot_bits p.mode) }
{
    let block = block_of(p.k, data);
    let mut bits = turbo::code_block(p.mode, block);
    scramble(p, &mut bits);
    bits
}

// All symbols of the block that has these bits; each is one of the grid, so none is refused. By the symbol's number: of what is written through
// chunks_exact_mut nothing would be known.
fn write_grid(mode: u8, level: f32, bits: &[u8], firsts: &mut [f32], seconds: &mut [f32])
    requires { (length bits.now ≡ slot_bits mode * slots mode)
        × (length firsts.old ≡ 4096 * symbols mode) × (length seconds.old ≡ 4096 * symbols mode) }
    ensures { Grid mode level bits.now firsts.new seconds.new }
{
    let n = symbol_count(mode);
    for y in 0..n {
        let at = 4096 * y;
        let end = at + 4096;
        cells::write_symbol(
            mode,
            level,
            bits,
            y,
            &mut firsts[at..end],
            &mut seconds[at..end],
        )
        .unwrap();
    }
}

// Fills the whole grid.
pub fn send(p: Profile, data: &[u8], firsts: &mut [f32], seconds: &mut [f32]) -> Result<(), Refusal>
    ensures { SendRule p «data».now firsts.old seconds.old firsts.new seconds.new (answer_of result) }
{
    let mode = p.mode;
    early(
        p,
        data.len(),
        firsts.len(),
        seconds.len(),
        4096 * symbol_count(mode),
    )?;
    let bits = sent_bits(p, data);
    let n = block_bits(mode);
    write_grid(mode, p.level, &bits[..n], firsts, seconds);
    Ok(())
}

// Fills two lists of 4096 with one symbol's cells.
pub fn send_symbol(
    p: Profile,
    data: &[u8],
    symbol: usize,
    firsts: &mut [f32],
    seconds: &mut [f32],
) -> Result<(), Refusal>
    ensures { SendSymbolRule p «data».now symbol firsts.old seconds.old firsts.new seconds.new (answer_of result) }
{
    let mode = p.mode;
    early(p, data.len(), firsts.len(), seconds.len(), 4096)?;
    if symbol >= symbol_count(mode) {
        return Err(Refusal::OutsideGrid);
    }
    let bits = sent_bits(p, data);
    let n = block_bits(mode);
    cells::write_symbol(mode, p.level, &bits[..n], symbol, firsts, seconds).unwrap();
    Ok(())
}
