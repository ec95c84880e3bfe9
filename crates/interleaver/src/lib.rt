// The turbo interleaver at width 5 and length 994.
#![tactic(auto)]

ghost use Rattle.std.specs.Prelude.{◌≡◌, ◌<◌};
ghost use Rattle.rules.specs.Bits.{row};
ghost use Rattle.rules.specs.Kept as keeping;
ghost use Rattle.rules.specs.Kept.{next_kept};
ghost use Rattle.rules.specs.Interleaver as rule;
ghost use Rattle.rules.specs.Interleaver.{table_d, interleaved};
ghost use Rattle.laws.specs.Holds.{Holds};

// The multipliers, by I0.
const D: [u16; 32] = [
    27, 3, 1, 15, 13, 17, 23, 13, 9, 3, 15, 3, 13, 1, 13, 29, 21, 19, 1, 3, 29, 17, 25, 29, 9, 13,
    23, 13, 13, 1, 13, 13,
];

// A kept address, and the counter that gave it.
#[derive(Clone, Copy)]
pub struct Kept {
    pub address: u16,
    pub counter: u16,
}

// Five bits reversed.
fn reversed(i: u16) -> u16
    requires { i < 32 }
    ensures { result ≡ keeping.reversed 5 i }
{
    i.reverse_bits() >> 11
}

// The address of a counter.
fn address(m: u16) -> u16
    requires { m < 1024 }
    ensures { result ≡ rule.address 5 (row table_d) m }
{
    let i0 = m % 32;
    let at = usize::from(i0);
    32 * reversed(i0) + D[at] * (m / 32 + 1) % 32
}

// The first address below the length from counter m on, with its counter; there is one.
fn next_kept(m: u16) -> Kept
    requires { next_kept (rule.address 5 (row table_d)) 994 1024 m < 1024 }
    ensures { (result.counter ≡ next_kept (rule.address 5 (row table_d)) 994 1024 m) × (result.address ≡ rule.address 5 (row table_d) result.counter) }
{
    // Document 01 names this form: a loop that yields its value by break.
    let mut counter = m;
    loop {
        let address = address(counter);
        if address < 994 {
            break Kept { address, counter };
        }
        counter += 1;
    }
}

// For each i, which of the first encoder's bits is the second's i-th.
pub fn addresses() -> [u16; 994]
    ensures { Holds 0 994 (interleaved 5 (row table_d) 994) result }
{
    let mut out = [0u16; 994];
    let mut from: u16 = 0;
    for address in out.iter_mut() {
        let kept = next_kept(from);
        *address = kept.address;
        from = kept.counter + 1;
    }
    out
}
