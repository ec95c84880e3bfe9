// What a part and a cell decide to where a part has W bits, one or two. That stands in each contract, since a const parameter can carry no fact.
ghost use Rattle.std.specs.Prelude.{◌≡◌, ◌*◌, ◌+◌, ◌^◌, ◌<◌, ◌≤◌, length, get_or};
ghost use Rattle.rules.specs.Points as points;
ghost use Rattle.rules.specs.Points.{zero_part};
ghost use Rattle.rules.specs.Pieces.{cell_byte, choices};
ghost use Rattle.laws.specs.Holds.{Holds};
ghost use Rattle.deciding.specs.Deciding.{sign_or, byte_of};

use rules::Point;

// The level and the floor by which parts are decided.
#[derive(Clone, Copy)]
pub(crate) struct Lines {
    pub(crate) level: f32,
    pub(crate) floor: f32,
}

// The point that a cell holds.
fn point_in(firsts: &[f32], seconds: &[f32], c: usize) -> Point
    requires { (c < length firsts.now) × (c < length seconds.now) }
    ensures { (result.first ≡ get_or firsts.now c zero_part) × (result.second ≡ get_or seconds.now c zero_part) }
{
    Point {
        first: firsts[c],
        second: seconds[c],
    }
}

impl Lines {
    // The sign bit of a part, and for a doubtful one the number given.
    fn sign(self, part: f32, doubt: u8) -> u8
        requires { 1 ≤ doubt }
        ensures { (result ≡ sign_or doubt self.floor part) × (result ≤ doubt) }
    {
        if part > self.floor {
            0
        } else if part < -self.floor {
            1
        } else {
            doubt
        }
    }

    // Twice the size bit of a part, and 4 for a doubtful one.
    fn size(self, part: f32) -> u8
        ensures { (result ≡ 2 * points.size_of self.level self.floor part) × (result < 5) }
    {
        let line = 2.0 * self.level;
        let near = line - self.floor;
        let far = line + self.floor;
        if part > far || part < -far {
            0
        } else if part > -near && part < near {
            2
        } else {
            4
        }
    }

    // Both bits as a number. Where one is doubtful the sum is 4 or more: so no test of the two is needed, and many parts are decided at a time.
    fn size_and_sign(self, part: f32) -> u8
        ensures { (result ≡ points.decide 2 self.level self.floor part) × (result < 5) }
    {
        (self.size(part) + self.sign(part, 4)).min(4)
    }

    pub(crate) fn part<const W: usize>(self, part: f32) -> u8
        requires { (1 ≤ W) × (W ≤ 2) }
        ensures { (result ≡ points.decide W self.level self.floor part) × (result < choices W) }
    {
        if W == 1 {
            self.sign(part, 2)
        } else {
            self.size_and_sign(part)
        }
    }

    // A cell's decisions in one byte.
    fn cell<const W: usize>(self, p: Point) -> u8
        requires { (1 ≤ W) × (W ≤ 2) }
        ensures { result ≡ cell_byte W self.level self.floor p.first p.second }
    {
        let choices = (1u8 << W) + 1;
        self.part::<W>(p.first) + choices * self.part::<W>(p.second)
    }

    // What each cell decides to. The number of bits is known when this is compiled, so that many cells are decided at a time.
    pub(crate) fn cells<const W: usize>(self, firsts: &[f32], seconds: &[f32], out: &mut [u8])
        requires { (1 ≤ W) × (W ≤ 2) × (length firsts.now ≡ length out.old) × (length seconds.now ≡ length out.old) }
        ensures { Holds 0 (length out.old) (byte_of W self.level self.floor firsts.now seconds.now) out.new }
    {
        for (c, byte) in out.iter_mut().enumerate() {
            *byte = self.cell::<W>(point_in(firsts, seconds, c));
        }
    }
}
