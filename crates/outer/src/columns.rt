// Columns of a block, read and written; bit p of lost is packet p's.
ghost use Rattle.std.specs.Prelude.{◌≡◌, ◌<◌};
ghost use Rattle.rules.specs.Bits.{row};
ghost use Rattle.rules.specs.Outer.{column};
ghost use Rattle.laws.specs.Holds.{Holds};
ghost use Rattle.outer.specs.Solve as solve;
ghost use Rattle.outer.specs.Solve.{lost_at};
ghost use Rattle.outer.specs.Steps.{Put};

// Whether packet p is lost. That p is below 16 stands here and in node and other, of matrix.rt: it is the number that a loop over the 16 packets gives, and a
// type for it would be made and opened in the same turn.
pub(crate) fn lost_at(lost: u16, p: usize) -> bool
    requires { p < 16 }
    ensures { result ≡ lost_at lost p }
{
    (lost >> p) % 2 == 1
}

// Column j, with zero for the lost bytes. The loop counts packets: p is a place in the mask, in the block and in the column. That j is below 122 stands in
// three contracts, since a type for it would be made and opened in the same turn of one loop.
pub(crate) fn kept(lost: u16, block: &[u8; 1952], j: usize) -> [u8; 16]
    requires { j < 122 }
    ensures { Holds 0 16 (solve.kept lost (column block.now j)) result }
{
    let mut c = [0u8; 16];
    for p in 0..16 {
        if !lost_at(lost, p) {
            c[p] = block[122 * p + j];
        }
    }
    c
}

// Writes column j; p is a place in the column and in the block.
pub(crate) fn put(c: [u8; 16], j: usize, block: &mut [u8; 1952])
    requires { j < 122 }
    ensures { Put (row c) j block.old block.new }
{
    for p in 0..16 {
        block[122 * p + j] = c[p];
    }
}
