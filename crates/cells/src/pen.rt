// What a symbol's cells are written by, where a part has W bits. The number is known when this is compiled: no cell asks for it.
ghost use Rattle.std.specs.Prelude.{◌≡◌, ◌+◌, ◌*◌, ◌<◌, ◌≤◌, length};
ghost use Rattle.rules.specs.Modes as figures;
ghost use Rattle.cells.specs.Symbol.{symbol_cell};

use super::carrier::Carrier;
use super::parts::Parts;
use rules::{Cell, PointOf};

// Which points the cells carry, how many bits a slot has, and the parts at the level.
#[derive(Drop)]
pub(crate) struct Pen<const W: usize> {
    carrier: Carrier,
    slot_bits: usize,
    parts: Parts,
    ghost slot_long: { slot_bits ≡ figures.slot_bits carrier.mode },
    ghost part_long: { W ≡ figures.part_bits carrier.mode },
}

impl<const W: usize> Pen<W> {
    pub(crate) fn of(mode: u8, level: f32, symbol: usize) -> Pen<W>
        requires { (W ≡ figures.part_bits mode) × (symbol < 4096) }
        ensures { (result.carrier.mode ≡ mode) × (result.parts.level ≡ level) × (result.carrier.symbol ≡ symbol) }
    {
        Pen {
            carrier: Carrier::of(mode, symbol),
            slot_bits: modes::slot_bits(mode),
            parts: Parts::of(level),
        }
    }

    // Where the bits of a point begin in a block.
    fn first_bit(&self, p: PointOf) -> usize
        requires { (p.slot < figures.slots self.now.carrier.mode) × (p.point < 500) }
        ensures { let m = self.now.carrier.mode in
            (result ≡ figures.slot_bits m * p.slot + 2 * figures.part_bits m * p.point)
            × (result + 2 * figures.part_bits m ≤ figures.slot_bits m * figures.slots m) }
    {
        self.slot_bits * p.slot + 2 * W * p.point
    }

    // A cell of the symbol, where the block has these scrambled bits.
    pub(crate) fn cell(&self, bits: &[u8], c: usize) -> Cell
        requires { let m = self.now.carrier.mode in
            length bits.now ≡ figures.slot_bits m * figures.slots m }
        ensures { result ≡ symbol_cell self.now.carrier.mode self.now.parts.level bits.now self.now.carrier.symbol c }
    {
        match self.carrier.cell(c) {
            None => Cell::Silent,
            Some(p) => Cell::Carries(self.parts.point::<W>(bits, self.first_bit(p))),
        }
    }
}
