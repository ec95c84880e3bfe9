// Where a cell is in its interlace.
ghost use Rattle.std.specs.Prelude.{◌<◌};

#[derive(Clone, Copy)]
pub(crate) struct Spot {
    pub(crate) interlace: usize,
    pub(crate) place: usize,
    ghost inside: { (interlace < 8) × (place < 500) },
}

impl Spot {
    ghost use Rattle.std.specs.Prelude.{◌≡◌};
    ghost use Rattle.rules.specs.Cells.{belongs};
    ghost use Rattle.cells.specs.Spot.{belonging};

    // That of cell c; none where it is in no interlace. Cell 2048 is in none, so the upper half of interlace 0 stands one place higher.
    pub(crate) fn of(c: usize) -> Option<Spot>
        ensures { belonging result ≡ belongs c }
    {
        if c < 48 || c > 4048 || c == 2048 {
            return None;
        }
        let interlace = c % 8;
        if interlace != 0 || c < 2048 {
            return Some(Spot {
                interlace,
                place: (c - 48) / 8,
            });
        }
        Some(Spot {
            interlace,
            place: (c - 56) / 8,
        })
    }
}
