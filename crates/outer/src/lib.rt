// The outer code: parity of a block, and restoring lost packets. A block is 16 packets of 122 bytes, packet after packet.
#![tactic(auto)]

ghost use Rattle.std.specs.Prelude.{◌≡◌};
ghost use Rattle.rules.specs.Outer.{ParityMade, Restored};
ghost use Rattle.rules.specs.Answers.{outcome_number};

mod columns;
mod division;
mod matrix;
mod solution;

use division::Parity;
use rules::OuterError;
use solution::System;

// What an outcome's number is on paper.
pub fn number(outcome: Result<(), OuterError>) -> u32
    ensures { result ≡ outcome_number outcome }
{
    match outcome {
        Ok(()) => 0,
        Err(e) => e.number(),
    }
}

// Fills the last 16 - k packets with the parity of the k before them. The loop counts columns: j is a column's number, and its bytes stand 122 apart.
pub fn fill_parity(k: u8, block: &mut [u8]) -> Result<(), OuterError>
    ensures { ParityMade k block.old block.new (outcome_number result) }
{
    let parity = Parity::of(k)?;
    let block = block.as_mut_array::<1952>().ok_or(OuterError::BadLength)?;
    for j in 0..122 {
        let c = columns::kept(0, block, j);
        columns::put(parity.encoded(c), j, block);
    }
    Ok(())
}

// Works out the lost packets from those that aren't; bit p of lost is packet p's. Nothing is written before all columns are known to be codewords.
pub fn restore(k: u8, lost: u16, block: &mut [u8]) -> Result<(), OuterError>
    ensures { Restored k lost block.old block.new (outcome_number result) }
{
    let parity = Parity::of(k)?;
    let block = block.as_mut_array::<1952>().ok_or(OuterError::BadLength)?;
    let system = System::of(parity, lost)?;
    *block = system.solved(block)?;
    Ok(())
}
