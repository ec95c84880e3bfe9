// A block's 16 packets, coded or judged one after the other. A number that is no mode counts as 1.
ghost use Rattle.std.specs.Prelude.{◌≡◌, ◌≤◌, ◌<◌, ◌*◌, length};
ghost use Rattle.rules.specs.Bits.{row};
ghost use Rattle.rules.specs.Outer.{marked};
ghost use Rattle.rules.specs.Modes.{packet_bits};
ghost use Rattle.rules.specs.Answers.{judgement_of};
ghost use Rattle.laws.specs.Holds.{Holds};
ghost use Rattle.turbo.specs.Blocks.{coded_row, Weighed, WeighedTo};

use super::{Decoder, Encoder};
use rules::Reason;

// The lost mask, the reasons, and the block of what is accepted, with zeros for what is lost. The reasons are numbers, 0 for none, as a Receipt has them:
// that is C's, and `WeighedTo` speaks of numbers.
#[derive(Clone, Copy)]
pub struct Verdicts {
    pub lost: u16,
    pub reasons: [u8; 16],
    pub block: [u8; 1952],
}

// The coded bits of the block's packets, packet after packet, and zeros after them.
pub fn code_block(mode: u8, block: [u8; 1952]) -> [u8; 48000]
    ensures { Holds 0 48000 (coded_row mode (packet_bits mode * 16) block) result }
{
    let encoder = Encoder::new(mode);
    let n = modes::packet_bits(mode);
    let mut bits = [0u8; 48000];
    // Over p, the packet's number: a place in the block and in the bits. Of what is written through chunks_exact_mut nothing would be known.
    for p in 0..16 {
        let from = 122 * p;
        let at = n * p;
        encoder.code(&block[from..from + 122], &mut bits[at..at + n]);
    }
    bits
}

// Packet p's judgement: a marked one is lost without a look at its bits.
fn weigh(decoder: &Decoder, marks: u16, p: usize, v: &[u8]) -> Result<[u8; 122], Reason>
    requires { (p < 16) × (packet_bits decoder.now.encoder.mode ≤ length v.now) }
    ensures { Weighed decoder.now.encoder.mode (marked marks p) (row v.now) (judgement_of result) }
{
    if (marks >> p) % 2 == 1 {
        return Err(Reason::Marked);
    }
    decoder.judge(v)
}

// The judgements on the packets that have these decided bits, packet after packet; those past the mode's are unused.
pub fn judge_block(mode: u8, marks: u16, bits: [u8; 48000]) -> Verdicts
    ensures { WeighedTo 16 mode marks (row bits) result.lost result.reasons result.block }
{
    let decoder = Decoder::new(mode);
    let n = modes::packet_bits(mode);
    let mut lost = 0u16;
    let mut reasons = [0u8; 16];
    let mut block = [0u8; 1952];
    // Over p, the packet's number: a place in the marks, the mask, the reasons, the bits and the block.
    for p in 0..16 {
        let at = n * p;
        match weigh(&decoder, marks, p, &bits[at..at + n]) {
            Ok(bytes) => {
                let to = 122 * p;
                block[to..to + 122].copy_from_slice(&bytes);
            }
            Err(reason) => {
                lost |= 1 << p;
                reasons[p] = reason.number();
            }
        }
    }
    Verdicts {
        lost,
        reasons,
        block,
    }
}
