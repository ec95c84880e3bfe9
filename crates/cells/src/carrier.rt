// Which points the cells of a symbol carry.
ghost use Rattle.std.specs.Prelude.{◌≡◌, ◌<◌, ◌≤◌};
ghost use Rattle.rules.specs.Modes as figures;
ghost use Rattle.rules.specs.Cells as rule;

use super::spot::Spot;
use order::{PointAt, Table};
use rules::PointOf;

// A symbol of a mode, how many slots the block has, and the order of their points.
#[derive(Drop)]
pub(crate) struct Carrier {
    mode: u8,
    symbol: usize,
    slots: usize,
    points: Table<PointAt>,
    ghost inside: { symbol < 4096 },
    ghost slots_are: { slots ≡ figures.slots mode },
}

impl Carrier {
    pub(crate) fn of(mode: u8, symbol: usize) -> Carrier
        requires { symbol < 4096 }
        ensures { (result.mode ≡ mode) × (result.symbol ≡ symbol) }
    {
        Carrier {
            mode,
            symbol,
            slots: modes::slot_count(mode),
            points: order::points(),
        }
    }

    // The slot number of an interlace, 0 for none.
    fn slot_of(&self, interlace: usize) -> usize
        requires { interlace < 8 }
        ensures { (result ≡ rule.slot_of self.now.symbol interlace) × (result ≤ 7) }
    {
        interlace
    }

    // What an interlace carries at a place.
    fn at(&self, spot: Spot) -> Option<PointOf>
        ensures { result ≡ rule.carried_at self.now.mode self.now.symbol (rule.place spot.interlace spot.place) }
    {
        let slot = self.slot_of(spot.interlace);
        if slot == 0 {
            return None;
        }
        let t = 7 * self.symbol + slot - 1;
        if t >= self.slots {
            return None;
        }
        Some(PointOf {
            slot: t,
            point: usize::from(self.points.numbers()[spot.place]),
        })
    }

    // What cell c of the symbol carries.
    pub(crate) fn cell(&self, c: usize) -> Option<PointOf>
        ensures { result ≡ rule.carried self.now.mode self.now.symbol c }
    {
        self.at(Spot::of(c)?)
    }
}
