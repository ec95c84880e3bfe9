// The bits of the decisions in bytes, where a part has W bits, one or two. The number is known when this is compiled, so that many bytes are divided at
// a time. That W is 1 or 2 stands in each contract, since a const parameter can carry no fact.
ghost use Rattle.std.specs.Prelude.{◌≡◌, ◌*◌, ◌<◌, ◌≤◌, length};
ghost use Rattle.rules.specs.Bits.{row};
ghost use Rattle.rules.specs.Points.{bit_in};
ghost use Rattle.rules.specs.Pieces.{decision_in};
ghost use Rattle.laws.specs.Holds.{Holds};
ghost use Rattle.hearing.specs.Reading.{spread_bit};

// Bit k of a decision, 2 where it is doubtful. Decisions are numbers here as in deciding: they come out of the bytes of the state that C keeps.
fn bit_of<const W: usize>(d: u8, k: usize) -> u8
    requires { (1 ≤ W) × (W ≤ 2) × (k < W) }
    ensures { result ≡ bit_in W d k }
{
    if d == 1 << W {
        2
    } else {
        (d >> (W - 1 - k)) % 2
    }
}

// The first or the second of a byte's two decisions.
fn decision_in<const W: usize>(byte: u8, n: usize) -> u8
    requires { (1 ≤ W) × (W ≤ 2) × (n < 2) }
    ensures { result ≡ decision_in W byte n }
{
    let choices = (1u8 << W) + 1;
    if n == 0 {
        byte % choices
    } else {
        byte / choices
    }
}

// The bits of both.
fn spread_byte<const W: usize>(byte: u8, bits: &mut [u8])
    requires { (1 ≤ W) × (W ≤ 2) × (length bits.old ≡ 2 * W) }
    ensures { Holds 0 (2 * W) (spread_bit W (λ i. byte)) bits.new }
{
    for (k, bit) in bits.iter_mut().enumerate() {
        *bit = bit_of::<W>(decision_in::<W>(byte, k / W), k % W);
    }
}

// The bits of 500 bytes.
pub(crate) fn spread<const W: usize>(bytes: &[u8; 500], bits: &mut [u8])
    requires { (1 ≤ W) × (W ≤ 2) × (length bits.old ≡ 2 * W * 500) }
    ensures { Holds 0 (2 * W * 500) (spread_bit W (row bytes.now)) bits.new }
{
    for (i, byte) in bytes.iter().enumerate() {
        let at = 2 * W * i;
        spread_byte::<W>(*byte, &mut bits[at..at + 2 * W]);
    }
}
