// The matrix for a set of lost packets: what each syndrome counts for in each of them. It inverts the system, by Lagrange's polynomials.
ghost use Rattle.std.specs.Prelude.{◌≡◌, ◌<◌, ◌≤◌};
ghost use Rattle.std.specs.Int.Count.{ones};
ghost use Rattle.rules.specs.Bits.{row};
ghost use Rattle.rules.specs.Field.{◌⊕◌, ◌⊗◌, inverse};
ghost use Rattle.laws.specs.Holds.{Holds};
ghost use Rattle.outer.specs.Solve as solve;
ghost use Rattle.outer.specs.Solve.{entry, raised};
ghost use Rattle.outer.specs.Steps.{Starts, Rows};

use super::columns::lost_at;
use super::division::Parity;
use field::Element;

// Where packet p's polynomials are taken: α^(15-p).
fn node(p: usize) -> Element
    requires { p < 16 }
    ensures { result.0 ≡ solve.node p }
{
    Element::ALPHA.power((15 - p) as u32)
}

// The polynomial b becomes b times x plus a.
fn grow(b: &mut [u8; 8], a: Element)
    ensures { Holds 0 8 (λ j. raised (row b.old) j ⊕ a.0 ⊗ row b.old j) b.new }
{
    let mut last = Element::ZERO;
    for c in b.iter_mut() {
        let coefficient = Element(*c);
        *c = (last + a * coefficient).0;
        last = coefficient;
    }
}

// The lost packet p, among all that are lost.
#[derive(Clone, Copy)]
struct Missing {
    lost: u16,
    p: usize,
    ghost inside: { p < 16 },
}

impl Missing {
    // Whether n is lost, and is not p.
    fn other(self, n: usize) -> bool
        requires { n < 16 }
        ensures { result ≡ solve.other self.lost self.p n }
    {
        n != self.p && lost_at(self.lost, n)
    }

    // The product of x plus the node, over the other lost packets: its coefficients below x^8. The loop counts packets: n is a packet's number, and no list is
    // walked.
    fn basis(self) -> [u8; 8]
        ensures { Holds 0 8 (solve.basis (solve.other self.lost self.p) 16) result }
    {
        let mut b = [1u8, 0, 0, 0, 0, 0, 0, 0];
        for n in 0..16 {
            if self.other(n) {
                grow(&mut b, node(n));
            }
        }
        b
    }

    // And its value at p's node. The loop counts packets here too.
    fn product(self) -> Element
        ensures { result.0 ≡ solve.product (solve.other self.lost self.p) 16 (solve.node self.p) }
    {
        let x = node(self.p);
        let mut v = Element::ONE;
        for n in 0..16 {
            if self.other(n) {
                v = (x + node(n)) * v;
            }
        }
        v
    }

    // One over the denominator.
    fn scale(self, parity: Parity) -> Element
        ensures { result.0 ≡ inverse (solve.denominator parity.r self.lost self.p) }
    {
        let weight = node(self.p).power(128 - (parity.r as u32) / 2);
        (self.product() * weight).inverse()
    }

    // The packet's row.
    fn entries(self, parity: Parity) -> [u8; 8]
        ensures { Starts parity.r (entry parity.r self.lost self.p) result }
    {
        let d = self.scale(parity);
        let mut e = self.basis();
        for c in e.iter_mut() {
            *c = (Element(*c) * d).0;
        }
        e
    }
}

// A row for each lost packet, in their order. The rows are counted by hand: an iterator that lends them to be written would leave nothing known of them.
pub(crate) fn rows(parity: Parity, lost: u16) -> [[u8; 8]; 8]
    requires { ones lost ≤ 8 }
    ensures { Rows 16 parity.r lost result }
{
    let mut m = [[0u8; 8]; 8];
    let mut i = 0;
    for p in 0..16 {
        if lost_at(lost, p) {
            m[i] = Missing { lost, p }.entries(parity);
            i += 1;
        }
    }
    m
}
