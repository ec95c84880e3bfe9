// What a part, a point and each cell of a list decide to.
#![tactic(auto)]

ghost use Rattle.std.specs.Prelude.{◌≡◌, ◌<◌, is_ok};
ghost use Rattle.rules.specs.Modes.{part_bits};
ghost use Rattle.rules.specs.Points as points;
ghost use Rattle.deciding.specs.Deciding.{DecideRule};

mod lines;

use lines::Lines;
use rules::{Misfit, Point};

// The numbers that a point's two parts decide to. Numbers, and no enum: the rule of decisions speaks of numbers 0 to 4, and two of them make the byte of a
// cell in the state that C keeps.
#[derive(Clone, Copy)]
pub struct Decision {
    pub first: u8,
    pub second: u8,
}

// What a part decides to: the number that its bits make, and after the last such number the one for a doubtful part.
pub fn decide(mode: u8, level: f32, floor: f32, part: f32) -> u8
    ensures { (result ≡ points.decide (part_bits mode) level floor part) × (result < 5) }
{
    let lines = Lines { level, floor };
    if modes::part_bits(mode) == 1 {
        lines.part::<1>(part)
    } else {
        lines.part::<2>(part)
    }
}

pub fn decide_point(mode: u8, level: f32, floor: f32, p: Point) -> Decision
    ensures { (result.first ≡ points.decide (part_bits mode) level floor p.first)
        × (result.second ≡ points.decide (part_bits mode) level floor p.second)
        × (result.first < 5) × (result.second < 5) }
{
    Decision {
        first: decide(mode, level, floor, p.first),
        second: decide(mode, level, floor, p.second),
    }
}

// What each cell decides to, in a byte each. Where the lists are not of one length nothing is written. First and second parts are two lists, and no list of
// points: C lends them as two.
pub fn decide_cells(
    mode: u8,
    level: f32,
    floor: f32,
    firsts: &[f32],
    seconds: &[f32],
    out: &mut [u8],
) -> Result<(), Misfit>
    ensures { DecideRule mode level floor firsts.now seconds.now out.old out.new (is_ok result) }
{
    if firsts.len() != out.len() || seconds.len() != out.len() {
        return Err(Misfit);
    }
    let lines = Lines { level, floor };
    if modes::part_bits(mode) == 1 {
        lines.cells::<1>(firsts, seconds, out);
    } else {
        lines.cells::<2>(firsts, seconds, out);
    }
    Ok(())
}
