// The parts that bits make at a level. That W is 1 or 2 stands in each contract, since a const parameter can carry no fact.
ghost use Rattle.std.specs.Prelude.{◌≡◌, ◌+◌, ◌*◌, ◌<◌, ◌≤◌, eqb, length};
ghost use Rattle.rules.specs.Bits.{pick, row};
ghost use Rattle.rules.specs.Points.{part, point_of};
ghost use Rattle.cells.specs.Symbol.{Signed, Sized};

use rules::Point;

// The part that each byte makes as a bit, -level for 1: looked up and not branched on, since nothing foretells a scrambled bit. And the four parts
// that two bits make, at twice the size bit and the sign bit.
#[derive(Drop)]
pub(crate) struct Parts {
    level: f32,
    signed: [f32; 256],
    sized: [f32; 4],
    ghost by_sign: { Signed level signed },
    ghost by_size: { Sized level sized },
}

// Any byte but 1 counts as bit 0. Compiled to no branch.
fn flag(b: u8) -> usize
    ensures { (result ≡ pick (eqb b 1) 1 0) × (result < 2) }
{
    usize::from(b == 1)
}

impl Parts {
    pub(crate) fn of(level: f32) -> Parts
        ensures { result.level ≡ level }
    {
        let mut signed = [level; 256];
        signed[1] = -level;
        let outer = 3.0 * level;
        Parts {
            level,
            signed,
            sized: [outer, -outer, level, -level],
        }
    }

    // The part of the bits from a place on, where it has W bits: one or two.
    fn part<const W: usize>(&self, bits: &[u8], at: usize) -> f32
        requires { (1 ≤ W) × (W ≤ 2) × (at + W ≤ length bits.now) }
        ensures { result ≡ part W self.now.level (λ j. row bits.now (at + j)) }
    {
        if W == 1 {
            self.signed[usize::from(bits[at])]
        } else {
            self.sized[2 * flag(bits[at]) + flag(bits[at + 1])]
        }
    }

    // The point of the bits from a place on, where a part has W bits.
    pub(crate) fn point<const W: usize>(&self, bits: &[u8], at: usize) -> Point
        requires { (1 ≤ W) × (W ≤ 2) × (at + 2 * W ≤ length bits.now) }
        ensures { result ≡ point_of W self.now.level (λ j. row bits.now (at + j)) }
    {
        Point {
            first: self.part::<W>(bits, at),
            second: self.part::<W>(bits, at + W),
        }
    }
}
