// A table of 500 numbers that a rule gives.
ghost use Rattle.std.specs.Prelude.{◌≡◌, ℕ, ⊤, Option, Some, None, ltb};
ghost use Rattle.rules.specs.Bits.{pick};
ghost use Rattle.rules.specs.Cells.{place_of, point_at};
ghost use Rattle.laws.specs.Holds.{Holds};

use std::alloc::AllocError;
use std::marker::PhantomData;

// Which number stands where.
pub trait Order {
    ghost rule: { ℕ → ℕ };
}

// The place of each point in its interlace.
#[derive(Clone, Copy)]
pub struct PlaceOf;

impl Order for PlaceOf {
    ghost rule = { place_of };
}

// The point at each place of an interlace.
#[derive(Clone, Copy)]
pub struct PointAt;

impl Order for PointAt {
    ghost rule = { point_at };
}

pub struct Table<O: Order> {
    numbers: [u16; 500],
    order: PhantomData<O>,
    ghost by_rule: { Holds 0 500 O.rule numbers },
}

// It is copied as the array in it, whatever the order; `derive` would ask that of the order, and takes no ghost field.
impl<O: Order> Copy for Table<O> {}

impl<O: Order> Clone for Table<O> {
    ghost is_clone = { λ table copy. copy ≡ table };

    ghost is_infallible = { λ _. ⊤ };

    fn clone(&self) -> Result<Table<O>, AllocError> {
        Ok(*self)
    }
}

impl<O: Order> Table<O> {
    pub(crate) fn of(numbers: [u16; 500]) -> Table<O>
        requires { Holds 0 500 O.rule numbers }
    {
        Table {
            numbers,
            order: PhantomData,
        }
    }

    // What stands at a position, of which there are 500.
    pub fn at(&self, position: usize) -> Option<usize>
        ensures { result ≡ pick (ltb position 500) (Some (O.rule position)) None }
    {
        self.numbers.get(position).map(|n| usize::from(*n))
    }

    // All of them, for one who knows that a position is below 500: no look asks for it again.
    pub fn numbers(&self) -> &[u16; 500]
        ensures { Holds 0 500 O.rule result.now }
    {
        &self.numbers
    }
}
