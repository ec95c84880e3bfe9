// One packet's coded bits, and the judgement on decided ones; a whole block's are in blocks.rt. A bit is a byte that is 0 or 1.
#![tactic(auto)]

ghost use Rattle.std.specs.Prelude.{◌≡◌, ◌+◌, ◌≤◌, ◌<◌, length};
ghost use Rattle.rules.specs.Bits.{row};
ghost use Rattle.rules.specs.Packet.{packet_bit};
ghost use Rattle.rules.specs.Turbo as rule;
ghost use Rattle.rules.specs.Modes.{packet_bits};
ghost use Rattle.rules.specs.Slots.{second, coded};
ghost use Rattle.rules.specs.Block.{decided_data};
ghost use Rattle.rules.specs.Answers.{judgement_of};
ghost use Rattle.laws.specs.Holds.{Holds};
ghost use Rattle.laws.specs.Rows.{Bits};
ghost use Rattle.patterns.specs.Places.{Places, OwnPlaces};
ghost use Rattle.turbo.specs.Streams.{stream};
ghost use Rattle.turbo.specs.Within.{from, with_data, with_ends, Puts};
ghost use Rattle.turbo.specs.Coded.{CodingRule, JudgingRule, Addresses, plain_bits, same_bits, sent_from};

mod blocks;

pub use blocks::{Verdicts, code_block, judge_block};
use rules::{CodingError, Reason};

// An encoder's register of three bits.
#[derive(Clone, Copy)]
struct Register {
    bits: u8,
    ghost three: { bits < 8 },
}

// What an encoder puts out in one period, and its register then.
#[derive(Clone, Copy)]
struct Period {
    x: u8,
    y0: u8,
    register: Register,
}

impl Register {
    // As an encoder begins.
    fn new() -> Register
        ensures { result.bits ≡ 0 }
    {
        Register { bits: 0 }
    }

    // What the feedback adds to the bit that comes in.
    fn feedback(self) -> u8
        ensures { (result ≡ rule.feedback self.bits) × (result < 2) }
    {
        (self.bits / 2 % 2 + self.bits % 2) % 2
    }

    // The period where x is put out and a enters the register.
    fn period(self, x: u8, a: u8) -> Period
        requires { a < 2 }
        ensures { Puts x a self.bits result.x result.y0 result.register.bits }
    {
        Period {
            x,
            y0: (a + self.bits / 4 + self.bits % 2) % 2,
            register: Register {
                bits: a * 4 + self.bits / 2,
            },
        }
    }

    // The period of bit b.
    fn data_period(self, b: u8) -> Period
        requires { b < 2 }
        ensures { Puts b (rule.entering b self.bits) self.bits result.x result.y0 result.register.bits }
    {
        self.period(b, (b + self.feedback()) % 2)
    }

    // A period that ends the encoder: its register input is zero, and X is the feedback bit.
    fn last_period(self) -> Period
        ensures { Puts (rule.feedback self.bits) 0 self.bits result.x result.y0 result.register.bits }
    {
        self.period(self.feedback(), 0)
    }
}

// The three periods that end the encoder whose two streams begin at base.
fn ended(all: [u8; 3988], base: usize, register: Register) -> [u8; 3988]
    requires { base + 1994 ≤ 3988 }
    ensures { Holds 0 3988 (with_ends base register.bits (row all)) result }
{
    let mut s = all;
    let mut state = register;
    // Over the number of the period: what it puts out stands at two places of one array.
    for k in 0..3 {
        let p = state.last_period();
        s[base + 994 + k] = p.x;
        s[base + 1991 + k] = p.y0;
        state = p.register;
    }
    s
}

// Both encoders' streams: X and X' are there, and Y0 and Y'0 are filled in, with the ends of all four. A turn has a period of each
// encoder, since neither waits for the other. It goes over the number i, which is a place in each of four streams of one array.
fn encoded(all: [u8; 3988]) -> [u8; 3988]
    requires { Bits all }
    ensures { Holds 0 3988 (stream (row all) (from (row all) 1994)) result }
{
    let mut s = all;
    let mut first = Register::new();
    let mut second = Register::new();
    for i in 0..994 {
        let p = first.data_period(s[i]);
        let q = second.data_period(s[1994 + i]);
        s[997 + i] = p.y0;
        s[2991 + i] = q.y0;
        first = p.register;
        second = q.register;
    }
    let s = ended(s, 0, first);
    ended(s, 1994, second)
}

// The bits that enter the encoders, without the six tail zeros.
fn without_tail(bits: [u8; 1000]) -> [u8; 994]
    ensures { Holds 0 994 (row bits) result }
{
    let mut x = [0u8; 994];
    x.copy_from_slice(&bits[..994]);
    x
}

// The bits of the packet that holds these 122 bytes.
fn bits_of(data: &[u8]) -> [u8; 1000]
    requires { length «data».now ≡ 122 }
    ensures { Holds 0 1000 (packet_bit (row «data».now)) result }
{
    let mut bytes = [0u8; 122];
    bytes.copy_from_slice(data);
    packet::bits_of(bytes)
}

// What codes a mode's packets: the interleaver's addresses, and the places of what is sent. They are the same for every packet.
#[derive(Drop)]
struct Encoder {
    mode: u8,
    addresses: [u16; 994],
    places: [u16; 3000],
    ghost interleaves: { Addresses addresses },
    ghost placed: { Places mode places },
}

impl Encoder {
    fn new(mode: u8) -> Encoder
        ensures { result.mode ≡ mode }
    {
        Encoder {
            mode,
            addresses: interleaver::addresses(),
            places: patterns::places(mode),
        }
    }

    // The 994 bits that each encoder reads, at the beginning of X and of X'.
    fn entered(&self, x: [u8; 994]) -> [u8; 3988]
        ensures { Holds 0 3988 (with_data (row x)) result }
    {
        let mut s = [0u8; 3988];
        // Over i: a place in two streams of one array and in the addresses.
        for i in 0..994 {
            s[i] = x[i];
            s[1994 + i] = x[usize::from(self.addresses[i])];
        }
        s
    }

    // The four streams of 994 bits.
    fn streams(&self, x: [u8; 994]) -> [u8; 3988]
        requires { Bits x }
        ensures { Holds 0 3988 (stream (row x) (second (row x))) result }
    {
        encoded(self.entered(x))
    }

    // What is sent, taken from the streams.
    fn send(&self, all: [u8; 3988], out: &mut [u8])
        requires { length out.old ≡ packet_bits self.now.mode }
        ensures { Holds 0 (packet_bits self.now.mode) (sent_from self.now.mode (row all)) out.new }
    {
        for (i, bit) in out.iter_mut().enumerate() {
            *bit = all[usize::from(self.places[i])];
        }
    }

    // One packet of 122 bytes, coded and interleaved.
    fn code(&self, data: &[u8], out: &mut [u8])
        requires { (length «data».now ≡ 122) × (length out.old ≡ packet_bits self.now.mode) }
        ensures { Holds 0 (packet_bits self.now.mode) (coded self.now.mode (packet_bit (row «data».now))) out.new }
    {
        let x = without_tail(bits_of(data));
        self.send(self.streams(x), out);
    }

    // Whether the decided bits are those that the streams would have sent.
    fn sends(&self, all: [u8; 3988], v: &[u8]) -> bool
        requires { packet_bits self.now.mode ≤ length v.now }
        ensures { result ≡ same_bits (packet_bits self.now.mode) (row v.now) (sent_from self.now.mode (row all)) }
    {
        let mut same = true;
        // Over i, as many as the mode has: the decided bits and the places are longer lists.
        for i in 0..modes::packet_bits(self.mode) {
            same &= v[i] == all[usize::from(self.places[i])];
        }
        same
    }
}

// One packet of 122 bytes, coded and interleaved.
pub fn code(mode: u8, data: &[u8], out: &mut [u8]) -> Result<(), CodingError>
    ensures { CodingRule mode «data».now out.old out.new result }
{
    if !modes::is_mode(mode) {
        return Err(CodingError::WrongMode);
    }
    if data.len() != 122 || out.len() != modes::packet_bits(mode) {
        return Err(CodingError::WrongLength);
    }
    Encoder::new(mode).code(data, out);
    Ok(())
}

// Whether none of the decided bits is doubtful. Each is looked at, as many at once as the machine can; `all` would stop at the first, one after the other.
fn plain(v: &[u8]) -> bool
    ensures { result ≡ plain_bits (length v.now) (row v.now) }
{
    let mut plain = true;
    for bit in v {
        plain &= *bit < 2;
    }
    plain
}

// Who reads decided bits asks that there are as many as the mode has. It is no type of its own: that would hold the mode once more, which the encoder has.
// What judges a mode's packets: their encoder, and as which bits a packet's own are sent.
#[derive(Drop)]
struct Decoder {
    encoder: Encoder,
    own: [u16; 994],
    ghost placed: { OwnPlaces encoder.mode own },
}

impl Decoder {
    fn new(mode: u8) -> Decoder
        ensures { result.encoder.mode ≡ mode }
    {
        Decoder {
            encoder: Encoder::new(mode),
            own: patterns::own_places(mode),
        }
    }

    // The decided bits that are the packet's own.
    fn decided(&self, v: &[u8]) -> [u8; 994]
        requires { packet_bits self.now.encoder.mode ≤ length v.now }
        ensures { Holds 0 994 (decided_data self.now.encoder.mode (row v.now)) result }
    {
        let mut x = [0u8; 994];
        for (i, bit) in x.iter_mut().enumerate() {
            *bit = v[usize::from(self.own[i])];
        }
        x
    }

    // Judges the first decided bits, as many as a packet of the mode has.
    fn judge(&self, v: &[u8]) -> Result<[u8; 122], Reason>
        requires { packet_bits self.now.encoder.mode ≤ length v.now }
        ensures { JudgingRule self.now.encoder.mode (row v.now) (judgement_of result) }
    {
        if !plain(&v[..modes::packet_bits(self.encoder.mode)]) {
            return Err(Reason::Doubtful);
        }
        let x = self.decided(v);
        if !packet::check_right(x) {
            return Err(Reason::CheckWord);
        }
        if !packet::reserved_right(x) {
            return Err(Reason::Reserved);
        }
        if !self.encoder.sends(self.encoder.streams(x), v) {
            return Err(Reason::Coded);
        }
        Ok(packet::bytes_of(x))
    }
}

// Judges one packet's decided bits; those past the mode's are unused. A number that is no mode counts as 1.
pub fn judge(mode: u8, v: [u8; 3000]) -> Result<[u8; 122], Reason>
    ensures { JudgingRule mode (row v) (judgement_of result) }
{
    Decoder::new(mode).judge(&v)
}
