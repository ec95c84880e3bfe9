// Scrambling of a slot's bits. A bit is a byte that is 0 or 1; 2 is a doubtful one. They are numbers and no enum: `scramble` takes any byte, and its rule
// `unscrambled` and the state's bytes speak of numbers.
#![tactic(auto)]

ghost use Rattle.std.specs.Prelude.{◌≡◌, ℕ, ◌<◌, ◌≤◌, ◌%◌, ◌^◌, length};
ghost use Rattle.rules.specs.Bits.{row};
ghost use Rattle.rules.specs.Slots.{scrambler_step, both, scrambling};
ghost use Rattle.rules.specs.Block.{unscrambled};
ghost use Rattle.laws.specs.Holds.{Holds};
ghost use Rattle.laws.specs.Filled.{up_to};

// A scrambler: the state of its register, and the mask of what it puts out.
#[derive(Clone, Copy)]
struct Scrambler {
    state: u32,
    mask: u32,
    ghost small: { state < 2 ^ 20 },
}

impl Scrambler {
    // Of a seed only the lowest 20 bits count.
    fn new(seed: u32, mask: u32) -> Scrambler
        ensures { (result.state ≡ seed % 2 ^ 20) × (result.mask ≡ mask) }
    {
        Scrambler {
            state: seed % 1048576,
            mask,
        }
    }

    // After one step of the register.
    fn stepped(self) -> Scrambler
        ensures { (result.state ≡ scrambler_step self.state) × (result.mask ≡ self.mask) }
    {
        Scrambler {
            state: self.state * 2 % 1048576 + (self.state / 524288 + self.state / 65536) % 2,
            mask: self.mask,
        }
    }

    // What it puts out: whether an odd number of its register's bits are in the mask.
    fn output(self) -> u8
        ensures { result ≡ both 20 self.state self.mask % 2 }
    {
        ((self.state & self.mask).count_ones() % 2) as u8
    }

    // The first 20 outputs from here on, by the register.
    fn first_outputs(self) -> [u8; 20]
        ensures { Holds 0 20 (scrambling self.state self.mask) result }
    {
        let mut out = [0u8; 20];
        let mut scrambler = self;
        for bit in out.iter_mut() {
            *bit = scrambler.output();
            scrambler = scrambler.stepped();
        }
        out
    }

    // The first 80. By h = D^20 + D^17 + 1 each is the sum of those 20 and 17 before it, whatever the mask.
    fn early_outputs(self) -> [u8; 80]
        ensures { Holds 0 80 (scrambling self.state self.mask) result }
    {
        let mut out = [0u8; 80];
        out[..20].copy_from_slice(&self.first_outputs());
        // Over the index: an iterator that writes an element does not reach those before it.
        for i in 20..80 {
            out[i] = out[i - 20] ^ out[i - 17];
        }
        out
    }

    // Those for the first n bits of a slot. By h^4 = D^80 + D^68 + 1 each is the sum of those 80 and 68 before it, so far back that many are made at once.
    fn outputs(self, n: usize) -> [u8; 2000]
        requires { n ≤ 2000 }
        ensures { (i : ℕ) → i < n → row result i ≡ scrambling self.state self.mask i }
    {
        let mut out = [0u8; 2000];
        out[..80].copy_from_slice(&self.early_outputs());
        // Over the index, as above.
        for i in 80..n {
            out[i] = out[i - 80] ^ out[i - 68];
        }
        out
    }
}

// A bit with s added; a doubtful one stays doubtful.
fn added(bit: u8, s: u8) -> u8
    requires { s < 2 }
    ensures { result ≡ unscrambled bit s }
{
    if bit == 2 { 2 } else { (bit % 2 + s) % 2 }
}

// Adds the scrambler's output to a slot's bits, in place; a doubtful one stays doubtful, and what lies behind the 2000 bits of the largest slot stays as
// it was. Done twice, it gives the bits back. Of a seed only the lowest 20 bits count.
pub fn scramble(seed: u32, mask: u32, bits: &mut [u8])
    ensures { Holds 0 (length bits.old)
        (up_to 2000 (λ i. unscrambled (row bits.old i) (scrambling seed mask i)) (row bits.old)) bits.new }
{
    let n = bits.len().min(2000);
    let out = Scrambler::new(seed, mask).outputs(n);
    for (i, bit) in bits[..n].iter_mut().enumerate() {
        *bit = added(*bit, out[i]);
    }
}
