// GF(256) as document 01's outer code has it.
#![tactic(auto)]

ghost use Rattle.std.specs.Prelude.{◌≡◌};
ghost use Rattle.rules.specs.Field as rule;
ghost use Rattle.rules.specs.Field.{◌⊕◌, ◌⊗◌};

mod tables;

use std::ops::{Add, Mul};
use tables::{high_multiples, low_multiples, mask};

// An element of the field: bit i of the byte is the coefficient of x^i.
#[derive(Clone, Copy, Debug, PartialEq, Eq)]
pub struct Element(pub u8);

impl Element {
    pub const ZERO: Element = Element(0);

    pub const ONE: Element = Element(1);

    pub const ALPHA: Element = Element(2);

    pub fn sum(self, other: Element) -> Element
        ensures { result.0 ≡ self.0 ⊕ other.0 }
    {
        Element(self.0 ^ other.0)
    }

    // One word has x^0 to x^7 times self, a byte each. Those whose bit of other is one are summed: four and four, two and two, one and one.
    pub fn product(self, other: Element) -> Element
        ensures { result.0 ≡ self.0 ⊗ other.0 }
    {
        let word = low_multiples(self.0 % 16) ^ high_multiples(self.0 / 16);
        let low = (word % 0x100000000) as u32;
        let high = (word >> 32) as u32;
        let four = (low & mask(other.0 % 16)) ^ (high & mask(other.0 / 16));
        let two = four ^ (four >> 16);
        let one = two ^ (two >> 8);
        Element((one % 256) as u8)
    }

    // By squares, so that the time goes by the digits of k: what is left of k is halved, and no list is walked.
    pub fn power(self, k: u32) -> Element
        ensures { result.0 ≡ rule.power self.0 k }
    {
        let mut answer = Element::ONE;
        let mut square = self;
        let mut left = k;
        while left > 0 {
            if left % 2 == 1 {
                answer = answer.product(square);
            }
            square = square.product(square);
            left = left / 2;
        }
        answer
    }

    // The inverse of zero is answered as zero.
    pub fn inverse(self) -> Element
        ensures { result.0 ≡ rule.inverse self.0 }
    {
        self.power(254)
    }
}

// + is the sum, and * the product.
impl Add for Element {
    type Output = Element;

    ghost add_gives = { λ a b r. r.0 ≡ a.0 ⊕ b.0 };

    fn add(self, other: Element) -> Element {
        self.sum(other)
    }
}

impl Mul for Element {
    type Output = Element;

    ghost mul_gives = { λ a b r. r.0 ≡ a.0 ⊗ b.0 };

    fn mul(self, other: Element) -> Element {
        self.product(other)
    }
}
