// Receiving a block: a whole grid, or one that is fed in pieces and then asked for.
#![tactic(auto)]

ghost use Rattle.std.specs.Prelude.{◌≡◌};
ghost use Rattle.rules.specs.Answers.{answer_of};
ghost use Rattle.rules.specs.Block.{ReceiveRule};
ghost use Rattle.rules.specs.Pieces.{FeedRule, AskRule};

mod judging;
mod pieces;

use block::early;
use modes::symbol_count;
use rules::{Profile, Receipt, Refusal};

// Receives a whole grid.
pub fn receive(p: Profile, marks: u16, firsts: &[f32], seconds: &[f32], data: &mut [u8]) -> Receipt
    ensures { ReceiveRule p marks firsts.now seconds.now «data».old «data».new result }
{
    let n = 4096 * symbol_count(p.mode);
    if let Err(refusal) = early(p, data.len(), firsts.len(), seconds.len(), n) {
        return Receipt::from(refusal);
    }
    let mut decided = [0u8; 28672];
    deciding::decide_cells(p.mode, p.level, p.floor, firsts, seconds, &mut decided[..n]).unwrap();
    judging::judge_cells(p, marks, &decided[..n], data)
}

// Takes the next piece of a grid into the state.
pub fn feed(p: Profile, state: &mut [u8], firsts: &[f32], seconds: &[f32]) -> Result<(), Refusal>
    ensures { FeedRule p firsts.now seconds.now state.old state.new (answer_of result) }
{
    pieces::feeding(p, state, firsts.len(), seconds.len())?;
    pieces::put(p, state, firsts, seconds);
    Ok(())
}

// Receives what was fed, once the last cell has come. The state stays, and can be asked again.
pub fn ask(p: Profile, marks: u16, state: &[u8], data: &mut [u8]) -> Receipt
    ensures { AskRule p marks state.now «data».old «data».new result }
{
    if let Err(refusal) = pieces::asking(p, state, data.len()) {
        return Receipt::from(refusal);
    }
    let end = 2 + 4096 * symbol_count(p.mode);
    judging::judge_cells(p, marks, &state[2..end], data)
}
