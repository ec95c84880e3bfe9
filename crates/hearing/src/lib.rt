// A block's bits read from what its cells decide to.
#![tactic(auto)]

ghost use Rattle.std.specs.Prelude.{◌≡◌, is_ok};
ghost use Rattle.hearing.specs.Reading.{ReadRule};

mod grid;
mod spread;

use grid::Grid;
use rules::Misfit;

// A block's bits from the bytes of the grid's cells. Where there are not as many cells and bits as the mode has, nothing is written. The slots are
// counted, since nothing is known of what is written through chunks_exact_mut.
pub fn read_block(mode: u8, cells: &[u8], bits: &mut [u8]) -> Result<(), Misfit>
    ensures { ReadRule mode cells.now bits.old bits.new (is_ok result) }
{
    if cells.len() != 4096 * modes::symbol_count(mode) {
        return Err(Misfit);
    }
    if bits.len() != modes::block_bits(mode) {
        return Err(Misfit);
    }
    let n = modes::slot_count(mode);
    let slot = modes::slot_bits(mode);
    let grid = Grid {
        mode,
        cells,
        places: order::places(),
    };
    for t in 0..n {
        let at = slot * t;
        grid.read_slot(t, &mut bits[at..at + slot]);
    }
    Ok(())
}
