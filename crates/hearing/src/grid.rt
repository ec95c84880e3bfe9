// A slot's bits among the bytes of a grid's cells.
ghost use Rattle.std.specs.Prelude.{◌≡◌, ◌*◌, ◌<◌, ◌≤◌, length};
ghost use Rattle.rules.specs.Bits.{row};
ghost use Rattle.rules.specs.Modes.{slots, slot_bits, symbols};
ghost use Rattle.rules.specs.Cells as rule;
ghost use Rattle.rules.specs.Pieces.{kept_bit};
ghost use Rattle.laws.specs.Holds.{Holds};
ghost use Rattle.hearing.specs.Reading.{point_byte};

use super::spread::spread;
use order::{PlaceOf, Table};

// The bytes of a mode's grid, and the places of a slot's points.
#[derive(Drop)]
pub(crate) struct Grid<'a> {
    pub(crate) mode: u8,
    pub(crate) cells: &'a [u8],
    pub(crate) places: Table<PlaceOf>,
    ghost whole: { length cells.now ≡ 4096 * symbols mode },
}

// The interlace of slot number 1 to 7 in a symbol.
fn interlace_of(symbol: usize, slot: usize) -> usize
    requires { (symbol < 4096) × (1 ≤ slot) × (slot ≤ 7) }
    ensures { (result ≡ rule.interlace_of symbol slot) × (result < 8) }
{
    slot
}

// The cell of a place of interlace k.
fn cell_of(k: usize, place: usize) -> usize
    requires { (k < 8) × (place < 500) }
    ensures { (result ≡ rule.cell_of k place) × (result < 4096) }
{
    if k == 0 && place >= 250 {
        56 + 8 * place
    } else {
        48 + k + 8 * place
    }
}

impl Grid<'_> {
    // The cell, in its symbol, of point i of block slot t.
    fn point_cell(&self, t: usize, i: usize) -> usize
        requires { (t < 4096) × (i < 500) }
        ensures { (result ≡ rule.point_cell t i) × (result < 4096) }
    {
        cell_of(interlace_of(t / 7, 1 + t % 7), self.places.at(i).unwrap())
    }

    // The bytes of block slot t's points.
    fn slot_bytes(&self, t: usize) -> [u8; 500]
        requires { t < slots self.now.mode }
        ensures { Holds 0 500 (point_byte (row self.now.cells.now) t) result }
    {
        let from = 4096 * (t / 7);
        let mut out = [0u8; 500];
        for (i, byte) in out.iter_mut().enumerate() {
            *byte = self.cells[from + self.point_cell(t, i)];
        }
        out
    }

    // The bits of block slot t.
    pub(crate) fn read_slot(&self, t: usize, bits: &mut [u8])
        requires { (t < slots self.now.mode) × (length bits.old ≡ slot_bits self.now.mode) }
        ensures { Holds 0 (slot_bits self.now.mode) (kept_bit self.now.mode (row self.now.cells.now) t) bits.new }
    {
        let bytes = self.slot_bytes(t);
        if modes::part_bits(self.mode) == 1 {
            spread::<1>(&bytes, bits);
        } else {
            spread::<2>(&bytes, bits);
        }
    }
}
