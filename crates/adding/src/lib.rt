// A month in whole numbers: totals over blocks, to which a receipt is added.
#![tactic(auto)]

ghost use Rattle.std.specs.Prelude.{◌≡◌, ◌<◌, T, false, length, MatchOption, IfErr};
ghost use Rattle.rules.specs.Bits.{row, every_below};
ghost use Rattle.rules.specs.Answers.{is_reason, has_read, answer_of, refusal_number};
ghost use Rattle.rules.specs.Block.{lost_mask};
ghost use Rattle.rules.specs.Totals as rule;
ghost use Rattle.rules.specs.Totals.{is_block, counts, plus, fits, adding_number, totals_after, AddRule};

use rules::{Receipt, Refusal, Totals};

// How many totals there are.
const TOTALS: usize = 128;

// Whether a receipt with this number is a received block.
pub fn is_block(number: u32) -> bool
    ensures { result ≡ has_read number }
{
    matches!(number, 0 | 9 | 10)
}

// Whether a reason is one that there is. It stays a number: a report that is read may have any, which 23 refuses.
fn is_reason(x: u8) -> bool
    ensures { result ≡ is_reason x }
{
    matches!(x, 0 | 11..=15)
}

// Whether all of them are.
fn are_reasons(reasons: [u8; 16]) -> bool
    ensures { result ≡ every_below 16 (λ p. is_reason (row reasons p)) }
{
    reasons.iter().all(|&x| is_reason(x))
}

// The lost mask that reasons give.
fn mask_of(reasons: [u8; 16]) -> u16
    ensures { result ≡ lost_mask 16 (row reasons) }
{
    let mut lost: u16 = 0;
    for (p, &reason) in reasons.iter().enumerate() {
        if reason != 0 {
            lost += 1 << p;
        }
    }
    lost
}

// Whether mask and reasons agree.
fn agrees(a: Receipt) -> bool
    ensures { result ≡ rule.agrees a }
{
    a.lost == mask_of(a.reasons) && are_reasons(a.reasons)
}

// A receipt that is a received block.
#[derive(Clone, Copy)]
struct Block {
    receipt: Receipt,
    ghost received: { T (is_block receipt) },
}

impl Block {
    // None where the receipt is no block.
    fn of(receipt: Receipt) -> Option<Block>
        ensures { MatchOption result (is_block receipt ≡ false) (λ b. b.receipt ≡ receipt) }
    {
        if is_block(receipt.number) {
            Some(Block { receipt })
        } else {
            None
        }
    }

    // Whether total i counts the block, by the kind of total: their order is the documents' list, in which a kind is its place.
    fn rises(self, i: usize) -> bool
        requires { i < 128 }
        ensures { result ≡ counts i self.receipt }
    {
        let reason = self.receipt.reasons[i / 8];
        match i % 8 {
            0 => reason == 0,
            1 => reason != 0 && self.receipt.number == 0,
            2 => reason != 0 && matches!(self.receipt.number, 9 | 10),
            kind => reason as usize == kind + 8,
        }
    }

    // Whether no total passes 2^64 - 1 with this block more.
    fn has_room(self, totals: &[u64]) -> bool
        requires { length totals.now ≡ 128 }
        ensures { result ≡ fits (plus totals.now self.receipt) }
    {
        totals
            .iter()
            .enumerate()
            .all(|(i, &total)| total != u64::MAX || !self.rises(i))
    }

    // Why the block isn't added: 23, 19, the first that fits.
    fn check(self, totals: &[u64]) -> Result<(), Refusal>
        ensures number { (answer_of result).number ≡ adding_number totals.now self.receipt }
        ensures refused { IfErr result (λ e. ¬ (refusal_number e ≡ 0)) }
    {
        if totals.len() != TOTALS || !agrees(self.receipt) {
            return Err(Refusal::Disagreement);
        }
        if !self.has_room(totals) {
            return Err(Refusal::FullTotal);
        }
        Ok(())
    }

    // Counts the block, for which there is room.
    fn raise(self, totals: &mut [u64])
        requires long { length totals.old ≡ 128 }
        requires room { T (fits (plus totals.old self.receipt)) }
        ensures { totals.new ≡ plus totals.old self.receipt }
    {
        for (i, total) in totals.iter_mut().enumerate() {
            if self.rises(i) {
                *total += 1;
            }
        }
    }
}

// Adds a receipt to totals that are lent.
pub fn add_to(totals: &mut [u64], a: Receipt) -> Result<(), Refusal>
    ensures { AddRule totals.old a totals.new (answer_of result).number }
{
    let Some(block) = Block::of(a) else {
        return Ok(());
    };
    block.check(totals)?;
    block.raise(totals);
    Ok(())
}

// Adds a receipt to totals as a value.
pub fn add(totals: Totals, a: Receipt) -> Result<Totals, Refusal>
    ensures { AddRule totals.counts a (totals_after totals.counts result) (answer_of result).number }
{
    let mut counts = totals.counts;
    add_to(&mut counts, a)?;
    Ok(Totals { counts })
}
