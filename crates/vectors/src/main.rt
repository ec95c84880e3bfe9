// Runs the rooms below the card on inputs by formula and prints what comes out. `stdout` is what outside/flo.py says.
#![tactic(auto)]

mod blocks;
mod coded;
mod decisions;
mod floors;
mod packets;
mod part;
mod powers;
mod print;
mod rows;
mod sequences;
mod symbols;

use std::io;

// What prints is lent to each function as `rt`: no global output in Rattle, and no fact joins it with what else they take.
fn main(rt: HostRuntime) -> io::Result<()> {
    packets::all(&rt)?;
    powers::all(&rt)?;
    blocks::all(&rt)?;
    coded::all(&rt)?;
    sequences::all(&rt)?;
    symbols::all(&rt)?;
    decisions::all(&rt)?;
    floors::all(&rt)
}
