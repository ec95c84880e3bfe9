// What was added up: the totals of all that was taken, and the number of its blocks.
ghost use Rattle.std.specs.Prelude.{◌+◌, ◌<◌, ◌≤◌, ◌≡◌};
ghost use Rattle.rules.specs.Answers.{answer_of};
ghost use Rattle.rules.specs.Totals.{AddRule, no_totals};
ghost use Rattle.totals.specs.Month.{Month, Added};

use rules::{Receipt, Refusal};
use std::fmt;
use std::marker::Model;

// How many totals there are.
const TOTALS: usize = 128;

#[derive(Drop)]
pub struct Sums {
    totals: [u64; TOTALS],
    blocks: u64,
}

impl Model for Sums {
    ghost Value = { Added };

    ghost view = { λ s. record { totals = s.totals; blocks = s.blocks } };

    ghost invariant = { λ s. Month s.totals s.blocks };
}

impl Sums {
    // Nothing is added yet.
    pub fn new() -> Sums
        ensures { result ≡ record { totals = no_totals; blocks = 0 } }
    {
        Sums {
            totals: [0; TOTALS],
            blocks: 0,
        }
    }

    // Adds a receipt, and counts its block where it is one and was not refused.
    pub fn add(&mut self, a: Receipt) -> Result<(), Refusal>
        requires { self.old.blocks < 9223372036854775808 }
        ensures added { AddRule self.old.totals a self.new.totals (answer_of result).number }
        ensures few { self.new.blocks ≤ self.old.blocks + 1 }
    {
        adding::add_to(&mut self.totals, a)?;
        if adding::is_block(a.number) {
            self.blocks += 1;
        }
        Ok(())
    }
}

// The eight totals of a position, each behind a blank.
#[derive(Clone, Copy)]
struct Eight<'a>(&'a [u64; 8]);

impl fmt::Display for Eight<'_> {
    fn fmt<W: fmt::Write>(&self, f: &mut fmt::Formatter<W>) -> fmt::Result {
        for total in self.0 {
            write!(f, " {total}")?;
        }
        Ok(())
    }
}

// A line for each position, and one with the number of blocks.
impl fmt::Display for Sums {
    fn fmt<W: fmt::Write>(&self, f: &mut fmt::Formatter<W>) -> fmt::Result {
        let (eights, _) = self.totals.as_chunks::<8>();
        for (p, eight) in eights.iter().enumerate() {
            writeln!(f, "{p}{}", Eight(eight))?;
        }
        writeln!(f, "{}", self.blocks)
    }
}
