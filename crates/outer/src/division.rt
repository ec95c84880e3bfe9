// The division by the generator: parity of a column, and the test whether it is a codeword. Of a column's 16 bytes the last r are parity.
ghost use Rattle.std.specs.Prelude.{◌≡◌, ◌-◌, ◌≤◌, is_ok, MatchResult};
ghost use Rattle.rules.specs.Bits.{row};
ghost use Rattle.rules.specs.declared.OuterError.TheVariants.{BadK};
ghost use Rattle.rules.specs.Outer as rule;
ghost use Rattle.rules.specs.Outer.{is_k, Codeword};
ghost use Rattle.laws.specs.Holds.{Holds};
ghost use Rattle.outer.specs.Steps as steps;
ghost use Rattle.outer.specs.Steps.{Starts, Says, divided};

use field::Element;
use rules::OuterError;

// The generators for r = 8, 4 and 2 from x^(r-1) down to 1, and ones after that, where nobody looks.
const G8: [u8; 8] = [238, 245, 94, 235, 94, 245, 238, 1];

const G4: [u8; 8] = [56, 207, 56, 1, 1, 1, 1, 1];

const G2: [u8; 8] = [73, 1, 1, 1, 1, 1, 1, 1];

// How many of a column's 16 bytes are parity: the last r.
#[derive(Clone, Copy)]
pub(crate) struct Parity {
    pub(crate) r: usize,
    ghost few: { r ≤ 8 },
}

impl Parity {
    // Only for a K that is 8, 12 or 14.
    pub(crate) fn of(k: u8) -> Result<Parity, OuterError>
        ensures ok { is_ok result ≡ is_k k }
        ensures rest { MatchResult result (λ parity. parity.r ≡ 16 - k) (λ e. e ≡ BadK) }
    {
        match k {
            8 | 12 | 14 => Ok(Parity {
                r: (16 - k) as usize,
            }),
            _ => Err(OuterError::BadK),
        }
    }

    fn generator(self) -> [u8; 8]
        ensures { Holds 0 8 (rule.generator self.r) result }
    {
        match self.r {
            8 => G8,
            4 => G4,
            _ => G2,
        }
    }

    // Byte i of the register, and zero after its end.
    fn below(self, s: [u8; 8], i: usize) -> u8
        ensures { result ≡ steps.below self.r (row s) i }
    {
        if i < self.r { s[i] } else { 0 }
    }

    // The register s, of which r bytes are in use, after the byte d. Three lists go by one position, one of them by the next.
    fn step(self, s: [u8; 8], d: u8) -> [u8; 8]
        ensures { Starts self.r (divided self.r (row s) d) result }
    {
        let g = self.generator();
        let q = Element(d) + Element(s[0]);
        let mut t = [0u8; 8];
        for i in 0..self.r {
            t[i] = (Element(self.below(s, i + 1)) + q * Element(g[i])).0;
        }
        t
    }

    // The parity of the first 16 - r bytes.
    fn remainder(self, c: [u8; 16]) -> [u8; 8]
        ensures { Starts self.r (rule.remainder self.r (row c) (16 - self.r)) result }
    {
        let mut s = [0u8; 8];
        for d in &c[..16 - self.r] {
            // A name of its own: the checker lays no call's array in a local that is lent.
            let next = self.step(s, *d);
            s = next;
        }
        s
    }

    // The codeword that starts with the first 16 - r bytes.
    pub(crate) fn encoded(self, c: [u8; 16]) -> [u8; 16]
        ensures { Holds 0 16 (rule.encoded self.r (row c)) result }
    {
        let s = self.remainder(c);
        let k = 16 - self.r;
        let mut w = c;
        w[k..k + self.r].copy_from_slice(&s[..self.r]);
        w
    }

    pub(crate) fn is_codeword(self, c: [u8; 16]) -> bool
        ensures { Says (Codeword self.r (row c)) result }
    {
        let s = self.remainder(c);
        &c[16 - self.r..] == &s[..self.r]
    }
}
