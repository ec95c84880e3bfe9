// Two grids side by side: the cells that differ, by the bit patterns of their parts.
#![tactic(auto)]

ghost use Rattle.std.specs.Prelude.{◌≡◌, ◌+◌, ◌<◌, T, length, IfOk, IfErr};
ghost use Rattle.rules.specs.Answers.{answer_of, refusal_number};
ghost use Rattle.rules.specs.Compare as rule;
ghost use Rattle.rules.specs.Compare.{Grids, CompareRule, grids, one_length, comparing_number, comparison_of, differing, differences, filled};
ghost use Rattle.comparing.specs.Listing.{Gone, place};

use rules::Refusal;
use std::marker::Model;

// Two grids whose four lists are of one length, whole symbols long.
#[derive(Drop)]
struct Pair<'a> {
    firsts_a: &'a [u32],
    seconds_a: &'a [u32],
    firsts_b: &'a [u32],
    seconds_b: &'a [u32],
}

impl<'a> Model for Pair<'a> {
    ghost Value = { Grids };

    ghost view = { λ p. grids p.firsts_a.now p.seconds_a.now p.firsts_b.now p.seconds_b.now };

    ghost invariant = { λ p. T (one_length (length p.firsts_a.now) (length p.seconds_a.now) (length p.firsts_b.now) (length p.seconds_b.now)) };
}

impl<'a> Pair<'a> {
    // 18 where the lengths are not all the same, 7 where they are not whole symbols, the first that fits.
    fn new(
        firsts_a: &'a [u32],
        seconds_a: &'a [u32],
        firsts_b: &'a [u32],
        seconds_b: &'a [u32],
    ) -> Result<Pair<'a>, Refusal>
        ensures number { (answer_of result).number ≡ comparing_number (length firsts_a.now) (length seconds_a.now) (length firsts_b.now) (length seconds_b.now) }
        ensures pair { IfOk result (λ p. p ≡ grids firsts_a.now seconds_a.now firsts_b.now seconds_b.now) }
        ensures refused { IfErr result (λ e. ¬ (refusal_number e ≡ 0)) }
    {
        let cells = firsts_a.len();
        if seconds_a.len() != cells || firsts_b.len() != cells || seconds_b.len() != cells {
            return Err(Refusal::UnequalGrids);
        }
        if cells % 4096 != 0 {
            return Err(Refusal::WrongCells);
        }
        Ok(Pair {
            firsts_a,
            seconds_a,
            firsts_b,
            seconds_b,
        })
    }

    // How many cells each grid has.
    fn cells(&self) -> usize
        ensures { result ≡ length self.now.firsts_a }
    {
        self.firsts_a.len()
    }

    // Whether cell i differs: a part has other bits.
    fn differs(&self, i: usize) -> bool
        requires { i < length self.now.firsts_a }
        ensures { result ≡ rule.differs self.now i }
    {
        let Pair {
            firsts_a,
            seconds_a,
            firsts_b,
            seconds_b,
        } = *self;
        firsts_a[i] != firsts_b[i] || seconds_a[i] != seconds_b[i]
    }

    // The six numbers of cell i, in grids that begin with the symbol `from`.
    fn difference(&self, from: u32, i: usize) -> [u32; 6]
        requires { i < length self.now.firsts_a }
        ensures { result ≡ rule.difference from self.now i }
    {
        let Pair {
            firsts_a,
            seconds_a,
            firsts_b,
            seconds_b,
        } = *self;
        let symbol = (from as usize + i / 4096) % 4_294_967_296;
        [
            symbol as u32,
            (i % 4096) as u32,
            firsts_a[i],
            seconds_a[i],
            firsts_b[i],
            seconds_b[i],
        ]
    }

    // Puts cell i's difference, the k-th, at its place in the list. Where it doesn't fit it isn't made: its parts would be read for nothing.
    fn list_cell(&self, from: u32, list: &mut [u32], k: usize, i: usize)
        requires { i < length self.now.firsts_a }
        ensures { Gone list.old (place (length list.old) k) (rule.difference from self.now i) list.new (place (length list.old) (k + 1)) }
    {
        if list.len() / 6 > k {
            list_one(list, k, self.difference(from, i));
        }
    }

    // Lists the differences in rising order, as far as they fit, and answers how many there are.
    fn list_all(&self, from: u32, list: &mut [u32]) -> u64
        ensures count { result ≡ length (differing self.now) }
        ensures listed { list.new ≡ filled (differences from self.now) list.old }
    {
        let mut count = 0;
        // i is the cell's number in both grids, which a difference says.
        for i in 0..self.cells() {
            if self.differs(i) {
                self.list_cell(from, list, count, i);
                count += 1;
            }
        }
        count as u64
    }
}

// Puts difference k at its place in the list, where it fits whole.
fn list_one(list: &mut [u32], k: usize, difference: [u32; 6])
    ensures { Gone list.old (place (length list.old) k) difference list.new (place (length list.old) (k + 1)) }
{
    if k < list.len() / 6 {
        list[6 * k..6 * k + 6].copy_from_slice(&difference);
    }
}

// Compares grids that begin with the symbol `from`: so the parts of a whole grid can be compared one after the other.
pub fn compare_from(
    from: u32,
    firsts_a: &[u32],
    seconds_a: &[u32],
    firsts_b: &[u32],
    seconds_b: &[u32],
    differences: &mut [u32],
) -> Result<u64, Refusal>
    ensures { CompareRule from (grids firsts_a.now seconds_a.now firsts_b.now seconds_b.now)
        differences.old differences.new (comparison_of result) }
{
    let pair = Pair::new(firsts_a, seconds_a, firsts_b, seconds_b)?;
    Ok(pair.list_all(from, differences))
}

// Compares whole grids.
pub fn compare(
    firsts_a: &[u32],
    seconds_a: &[u32],
    firsts_b: &[u32],
    seconds_b: &[u32],
    differences: &mut [u32],
) -> Result<u64, Refusal>
    ensures { CompareRule 0 (grids firsts_a.now seconds_a.now firsts_b.now seconds_b.now)
        differences.old differences.new (comparison_of result) }
{
    compare_from(0, firsts_a, seconds_a, firsts_b, seconds_b, differences)
}
