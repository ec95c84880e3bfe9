// The columns worked out, by the matrix for the lost packets.
ghost use Rattle.std.specs.Prelude.{◌≡◌, ◌<◌, ◌≤◌, MatchResult};
ghost use Rattle.std.specs.Int.Count.{ones};
ghost use Rattle.rules.specs.Bits.{row};
ghost use Rattle.rules.specs.Field.{◌⊕◌, ◌⊗◌};
ghost use Rattle.rules.specs.declared.OuterError.TheVariants.{TooManyLost};
ghost use Rattle.rules.specs.Outer as rule;
ghost use Rattle.rules.specs.Outer.{column};
ghost use Rattle.laws.specs.Holds.{Holds};
ghost use Rattle.outer.specs.Solve as solve;
ghost use Rattle.outer.specs.Solve.{sum};
ghost use Rattle.outer.specs.Steps.{Rows, Works};

use super::columns::{kept, lost_at, put};
use super::division::Parity;
use super::matrix::rows;
use field::Element;
use rules::OuterError;

// Eight powers of α in a row, of which the first r are the roots.
fn roots(parity: Parity) -> [u8; 8]
    ensures { Holds 0 8 (rule.root parity.r) result }
{
    let mut power = Element::ALPHA.power(128 - (parity.r as u32) / 2);
    let mut roots = [0u8; 8];
    for x in roots.iter_mut() {
        *x = power.0;
        power = Element::ALPHA * power;
    }
    roots
}

// The values v that a polynomial has at the places x, after one coefficient more. Three lists go by one position: over a zip that writes, nothing is known
// of what was written.
fn after(x: [u8; 8], v: [u8; 8], c: u8) -> [u8; 8]
    ensures { Holds 0 8 (λ j. row x j ⊗ row v j ⊕ c) result }
{
    let mut w = [0u8; 8];
    for j in 0..8 {
        w[j] = (Element(x[j]) * Element(v[j]) + Element(c)).0;
    }
    w
}

// The values at the places x of the polynomial whose coefficients are the column's bytes. All eight take each byte in turn, so that none waits for
// another.
fn values(x: [u8; 8], c: [u8; 16]) -> [u8; 8]
    ensures { Holds 0 8 (λ j. rule.value 16 (row c) (row x j)) result }
{
    let mut v = [0u8; 8];
    for byte in c {
        // A name of its own: the checker lays no call's array in a local that is lent.
        let next = after(x, v, byte);
        v = next;
    }
    v
}

// Of the first r only: both lists go by one position.
fn dot(parity: Parity, a: [u8; 8], b: [u8; 8]) -> u8
    ensures { result ≡ sum parity.r (λ j. row a j ⊗ row b j) }
{
    let mut v = Element::ZERO;
    for j in 0..parity.r {
        v = v + Element(a[j]) * Element(b[j]);
    }
    v.0
}

// How the lost packets follow from the others.
#[derive(Drop)]
pub(crate) struct System {
    parity: Parity,
    lost: u16,
    roots: [u8; 8],
    rows: [[u8; 8]; 8],
    ghost few: { ones lost ≤ 8 },
    ghost powers: { Holds 0 8 (rule.root parity.r) roots },
    ghost inverse: { Rows 16 parity.r lost rows },
}

impl System {
    // Only where no more packets are lost than there are of parity.
    pub(crate) fn of(parity: Parity, lost: u16) -> Result<System, OuterError>
        ensures { MatchResult result (λ s. (ones lost ≤ parity.r) × (s.parity.r ≡ parity.r) × (s.lost ≡ lost)) (λ e. (e ≡ TooManyLost) × (parity.r < ones lost)) }
    {
        if lost.count_ones() > parity.r as u32 {
            return Err(OuterError::TooManyLost);
        }
        Ok(System {
            parity,
            lost,
            roots: roots(parity),
            rows: rows(parity, lost),
        })
    }

    // Column j, with the only bytes for the lost packets that can make a codeword. The rows passed are counted by hand: an iterator over them would need a
    // way out for a row too few, which is never taken.
    fn column(&self, block: &[u8; 1952], j: usize) -> [u8; 16]
        requires { j < 122 }
        ensures { Holds 0 16 (solve.solved self.now.parity.r self.now.lost (column block.now j)) result }
    {
        let mut c = kept(self.lost, block, j);
        let s = values(self.roots, c);
        let mut i = 0;
        for p in 0..16 {
            if lost_at(self.lost, p) {
                c[p] = dot(self.parity, self.rows[i], s);
                i += 1;
            }
        }
        c
    }

    // All columns, where each has a codeword. The loop counts columns: j is a column's number, and its bytes stand 122 apart in the block.
    pub(crate) fn solved(&self, block: &[u8; 1952]) -> Result<[u8; 1952], OuterError>
        ensures { Works self.now.parity.r self.now.lost block.now result }
    {
        let mut out = [0u8; 1952];
        for j in 0..122 {
            let c = self.column(block, j);
            if !self.parity.is_codeword(c) {
                return Err(OuterError::NoCodeword);
            }
            put(c, j, &mut out);
        }
        Ok(out)
    }
}
