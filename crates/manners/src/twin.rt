// The words for twins: two slots of one symbol with the same seed and the same mask. A profile's bytes and its text have the same words.
ghost use Rattle.std.specs.Prelude.{◌<◌};

use super::field;
use std::fmt;

// A block slot that repeats an earlier one of its symbol, and the numbers of its profile.
#[derive(Clone, Copy)]
pub struct Twins {
    pub masks: [u32; 8],
    pub seeds: [u32; 48],
    pub slot: usize,
}

impl Twins {
    // In a profile's bytes. Where the mode has fewer seeds, the others are what stands behind them: no matter, since a slot is compared with earlier
    // ones only.
    pub(crate) fn in_bytes(bytes: &[u8], slot: usize) -> Twins {
        Twins {
            masks: field::numbers_at(bytes, field::MASKS_AT),
            seeds: field::numbers_at(bytes, field::SEEDS_AT),
            slot,
        }
    }
}

// What the two slots share: their seeds go by the slots, their masks by the slots' numbers in the symbol.
impl fmt::Display for Twins {
    fn fmt<W: fmt::Write>(&self, f: &mut fmt::Formatter<W>) -> fmt::Result {
        let t = self.slot;
        let u = twins::earliest(self.masks, self.seeds, t);
        let seed = self.seeds.get(t).copied().unwrap_or(0);
        let mask = self.masks[in_symbol(t)];
        write!(f, "slots {u} and {t} are twins in symbol {}", t / 7)?;
        write!(f, ": seeds {u} and {t} are both {seed}")?;
        write!(
            f,
            ", masks {} and {} both {mask}",
            in_symbol(u),
            in_symbol(t)
        )
    }
}

// A slot's number in its symbol, which is also the index of its mask.
fn in_symbol(t: usize) -> usize
    ensures { result < 8 }
{
    1 + t % 7
}
