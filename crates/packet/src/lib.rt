// A packet's bits and its check word. A bit is a byte that is 0 or 1: a number, since the public functions take any byte, and their rules speak of numbers.
#![tactic(auto)]

ghost use Rattle.std.specs.Prelude.{◌≡◌, ◌*◌, ◌%◌, length};
ghost use Rattle.rules.specs.Bits.{row, byte_bit};
ghost use Rattle.rules.specs.Packet.{check_step, check_word, packet_bit};
ghost use Rattle.rules.specs.Block.{byte_of, check_right, reserved_right};
ghost use Rattle.laws.specs.Holds.{Holds};

// The check register after one bit more.
fn check_step(s: u16, b: u8) -> u16
    ensures { result ≡ check_step s b }
{
    let top = ((s >> 15) + u16::from(b)) % 2;
    let shifted = s << 1;
    if top == 1 { shifted ^ 0x1021 } else { shifted }
}

// The check word of these bits.
pub fn check_of(x: &[u8]) -> u16
    ensures { result ≡ check_word (row x.now) (length x.now) }
{
    65535 - x.iter().fold(65535u16, |s, bit| check_step(s, *bit))
}

// Writes the bits of these bytes, the highest of each first.
fn write_bits(bytes: &[u8], bits: &mut [u8])
    requires { length bits.old ≡ 8 * length bytes.now }
    ensures { Holds 0 (length bits.old) (byte_bit (row bytes.now)) bits.new }
{
    for (i, bit) in bits.iter_mut().enumerate() {
        *bit = (bytes[i / 8] >> (7 - i % 8)) % 2;
    }
}

// The 1000 bits of the packet that holds these 122 bytes.
pub fn bits_of(data: [u8; 122]) -> [u8; 1000]
    ensures { Holds 0 1000 (packet_bit (row «data»)) result }
{
    let mut x = [0u8; 1000];
    write_bits(&data, &mut x[..976]);
    let word = check_of(&x[..976]).to_be_bytes();
    write_bits(&word, &mut x[976..992]);
    x
}

// Whether the check bits are the check word's.
pub fn check_right(x: [u8; 994]) -> bool
    ensures { result ≡ check_right (row x) }
{
    let word = check_of(&x[..976]).to_be_bytes();
    let mut bits = [0u8; 16];
    write_bits(&word, &mut bits);
    x[976..992] == bits[..]
}

// Whether the two reserved bits are zero.
pub fn reserved_right(x: [u8; 994]) -> bool
    ensures { result ≡ reserved_right (row x) }
{
    x[992] == 0 && x[993] == 0
}

// The byte of 8 bits: what is neither 0 nor 1 counts by its lowest bit.
fn byte_of(bits: &[u8]) -> u8
    requires { length bits.now ≡ 8 }
    ensures { result ≡ byte_of (λ i. row bits.now i % 2) 0 }
{
    bits.iter().fold(0u8, |b, bit| b << 1 | *bit % 2)
}

// The 122 bytes of a packet's bits: what is neither 0 nor 1 counts by its lowest bit.
pub fn bytes_of(x: [u8; 994]) -> [u8; 122]
    ensures { Holds 0 122 (byte_of (λ i. row x i % 2)) result }
{
    let mut bytes = [0u8; 122];
    for (j, byte) in bytes.iter_mut().enumerate() {
        *byte = byte_of(&x[8 * j..8 * j + 8]);
    }
    bytes
}
