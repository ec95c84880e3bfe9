// Which outputs of the two encoders are sent and where each stands, and as which bits a packet's own are sent, as tables of a mode; a number that is no
// mode counts as 1. It is a room of its own so that an edit of the encoders or of the judgement needn't check this again.
#![tactic(auto)]

ghost use Rattle.std.specs.Prelude.{◌≡◌, ◌*◌, ◌≤◌, ◌<◌};
ghost use Rattle.rules.specs.Interleaver.{bit_interleaved, bit_deinterleaved};
ghost use Rattle.rules.specs.Turbo as rule;
ghost use Rattle.rules.specs.Turbo.{coded_length};
ghost use Rattle.patterns.specs.Places as spec;
ghost use Rattle.patterns.specs.Places.{Places, OwnPlaces};

use rules::Rate;

// What a rate sends: the places of the outputs of as many bits as its pattern has, and of those that end an encoder. What the second encoder's end sends
// is the same, 1994 places on, where the tail has not both.
struct Pattern<const D: usize, const T: usize> {
    data: [u16; D],
    bits: usize,
    data_length: usize,
    tail: [u16; T],
}

const THIRD: Pattern<3, 9> = Pattern {
    data: [0, 997, 2991],
    bits: 1,
    data_length: 2982,
    tail: [994, 994, 1991, 995, 995, 1992, 996, 996, 1993],
};

const HALF: Pattern<4, 6> = Pattern {
    data: [0, 997, 1, 2992],
    bits: 2,
    data_length: 1988,
    tail: [994, 1991, 995, 1992, 996, 1993],
};

// The data has 1491 bits: the last pattern is used for two bits only. The two encoders don't end alike.
const TWO_THIRDS: Pattern<6, 9> = Pattern {
    data: [0, 997, 1, 2, 3, 2994],
    bits: 4,
    data_length: 1491,
    tail: [994, 1991, 995, 996, 1993, 2988, 2989, 3986, 2990],
};

impl<const D: usize, const T: usize> Pattern<D, T> {
    // The place of bit n of what is sent.
    fn place(&self, n: usize) -> usize
        requires { (0 < D) × (0 < T) × (self.now.bits ≤ 4) × (n < 3000) }
        ensures { result ≡ spec.place_by self.now.«data» self.now.bits self.now.data_length self.now.tail n }
    {
        if n < self.data_length {
            n / D * self.bits + usize::from(self.data[n % D])
        } else {
            let t = n - self.data_length;
            1994 * (t / T) + usize::from(self.tail[t % T])
        }
    }
}

// The place, among the four streams, of bit n of what is sent.
fn place(rate: Rate, n: usize) -> usize
    requires { n < coded_length rate 994 }
    ensures { (result ≡ spec.place rate n) × (result < 3988) }
{
    match rate {
        Rate::Half => HALF.place(n),
        Rate::Third => THIRD.place(n),
        Rate::TwoThirds => TWO_THIRDS.place(n),
    }
}

// The place of what is sent as bit i: four columns are written down and read row by row.
fn sent_place(rate: Rate, rows: usize, i: usize) -> usize
    requires { (coded_length rate 994 ≡ 4 * rows) × (rows ≤ 750) × (i < coded_length rate 994) }
    ensures { (result ≡ spec.place rate (bit_interleaved (coded_length rate 994) i)) × (result < 3988) }
{
    place(rate, rows * (i % 4) + i / 4)
}

// The places of all that is sent for a packet, and zeros after them. They are the same for every packet.
pub fn places(mode: u8) -> [u16; 3000]
    ensures { Places mode result }
{
    let n = modes::packet_bits(mode);
    let rate = modes::rate(mode);
    let rows = n / 4;
    let mut out = [0u16; 3000];
    for (i, place) in out[..n].iter_mut().enumerate() {
        *place = sent_place(rate, rows, i) as u16;
    }
    out
}

// Where bit i of the packet itself stands in what is sent. It is no pattern's place that is looked up: at each rate these places have a rule of their own. At
// 2/3 each pattern has Y0 after the first of its four bits.
fn data_place(rate: Rate, i: usize) -> usize
    requires { i < 994 }
    ensures { result ≡ rule.data_place rate i }
{
    match rate {
        Rate::Half => 2 * i,
        Rate::Third => 3 * i,
        Rate::TwoThirds if i % 4 == 0 => 6 * (i / 4),
        Rate::TwoThirds => 6 * (i / 4) + (i % 4 + 1),
    }
}

// As which bit it is sent.
fn own_place(rate: Rate, rows: usize, i: usize) -> usize
    requires { (coded_length rate 994 ≡ 4 * rows) × (rows ≤ 750) × (i < 994) }
    ensures { (result ≡ bit_deinterleaved (coded_length rate 994) (rule.data_place rate i)) × (result < 3000) }
{
    let n = data_place(rate, i);
    4 * (n % rows) + n / rows
}

// As which bits the packet's own are sent. They are the same for every packet.
pub fn own_places(mode: u8) -> [u16; 994]
    ensures { OwnPlaces mode result }
{
    let rate = modes::rate(mode);
    let rows = modes::packet_bits(mode) / 4;
    let mut out = [0u16; 994];
    for (i, place) in out.iter_mut().enumerate() {
        *place = own_place(rate, rows, i) as u16;
    }
    out
}
