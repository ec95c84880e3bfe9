// Points and cells: what each cell carries, and one symbol's cells written from a block's bits.
#![tactic(auto)]

ghost use Rattle.std.specs.Prelude.{◌≡◌, true, ◌+◌, ◌*◌, ◌<◌, ◌≤◌, ltb, length, is_ok};
ghost use Rattle.rules.specs.Bits.{row};
ghost use Rattle.rules.specs.Modes.{part_bits, slots, slot_bits, symbols};
ghost use Rattle.rules.specs.Points.{point_of, first_part, second_part};
ghost use Rattle.rules.specs.Cells as rule;
ghost use Rattle.cells.specs.Symbol as symbolRule;
ghost use Rattle.cells.specs.Symbol.{symbol_cell, Written, WriteRule};

mod carrier;
mod parts;
mod pen;
mod spot;

use carrier::Carrier;
use parts::Parts;
use pen::Pen;
use rules::{Cell, Misfit, Point, PointOf};

// Of QPSK the first two bits count.
pub fn point_of(mode: u8, level: f32, bits: [u8; 4]) -> Point
    ensures { result ≡ point_of (part_bits mode) level (row bits) }
{
    let parts = Parts::of(level);
    if modes::part_bits(mode) == 1 {
        parts.point::<1>(&bits, 0)
    } else {
        parts.point::<2>(&bits, 0)
    }
}

// Whether a symbol is one of the grid.
fn in_grid(mode: u8, symbol: usize) -> bool
    ensures { result ≡ ltb symbol (symbols mode) }
{
    symbol < modes::symbol_count(mode)
}

// What cell c of a symbol carries. The symbols after the grid's last carry nothing.
pub fn carried(mode: u8, symbol: usize, c: usize) -> Option<PointOf>
    ensures { result ≡ rule.carried mode symbol c }
{
    if in_grid(mode, symbol) {
        Carrier::of(mode, symbol).cell(c)
    } else {
        None
    }
}

// The two parts of a cell, zeros of a silent one. No From: Cell and Point are another crate's.
fn parts_of(cell: Cell) -> Point
    ensures { (result.first ≡ first_part cell) × (result.second ≡ second_part cell) }
{
    match cell {
        Cell::Silent => Point {
            first: 0.0,
            second: 0.0,
        },
        Cell::Carries(p) => p,
    }
}

// Whether a symbol can be written: lists of 4096 cells, a symbol of the grid, and as many bits as the block has.
fn fitting(mode: u8, symbol: usize, bits: usize, firsts: usize, seconds: usize) -> bool
    ensures { result ≡ symbolRule.fitting mode symbol bits firsts seconds }
{
    firsts == 4096 && seconds == 4096 && in_grid(mode, symbol) && bits == modes::block_bits(mode)
}

// One symbol's 4096 cells, in rising order, in a mode that has W bits a part. The loop counts cells: c says what a cell carries, and is its place in two lists;
// over a zip that writes, nothing is known of what was written.
fn write_cells<const W: usize>(
    mode: u8,
    level: f32,
    bits: &[u8],
    symbol: usize,
    firsts: &mut [f32],
    seconds: &mut [f32],
)
    requires { (W ≡ part_bits mode)
        × (symbolRule.fitting mode symbol (length bits.now) (length firsts.old) (length seconds.old) ≡ true) }
    ensures { Written mode level bits.now symbol firsts.new seconds.new }
{
    let pen = Pen::<W>::of(mode, level, symbol);
    for c in 0..4096 {
        let parts = parts_of(pen.cell(bits, c));
        firsts[c] = parts.first;
        seconds[c] = parts.second;
    }
}

// One symbol's cells, where it can be written; else nothing is. First and second parts are two lists, and no list of points: C lends them as two.
pub fn write_symbol(
    mode: u8,
    level: f32,
    bits: &[u8],
    symbol: usize,
    firsts: &mut [f32],
    seconds: &mut [f32],
) -> Result<(), Misfit>
    ensures { WriteRule mode level bits.now symbol
        firsts.old seconds.old firsts.new seconds.new (is_ok result) }
{
    if !fitting(mode, symbol, bits.len(), firsts.len(), seconds.len()) {
        return Err(Misfit);
    }
    if modes::part_bits(mode) == 1 {
        write_cells::<1>(mode, level, bits, symbol, firsts, seconds);
    } else {
        write_cells::<2>(mode, level, bits, symbol, firsts, seconds);
    }
    Ok(())
}
