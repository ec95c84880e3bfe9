// The state that pieces of a grid leave: how many cells have come, and a byte for each cell.
ghost use Rattle.std.specs.Prelude.{◌≡◌, false, ◌+◌, ◌*◌, ◌<◌, ◌≤◌, T, length, IfOk, IfErr};
ghost use Rattle.rules.specs.Answers.{answer_of};
ghost use Rattle.rules.specs.Modes.{part_bits};
ghost use Rattle.rules.specs.Pieces as rule;
ghost use Rattle.rules.specs.Pieces.{state_bytes, is_state, Put};
ghost use Rattle.rules.specs.declared.Refusal.TheVariants.{NoSuchState};
ghost use Rattle.receiving.specs.Steps.{Largest};

use modes::symbol_count;
use rules::{Profile, Refusal};

// How many cells have come, high byte first.
fn seen(state: &[u8]) -> usize
    requires { 2 ≤ length state.now }
    ensures { (result ≡ rule.seen state.now) × (result < 65536) }
{
    u16::from_be_bytes([state[0], state[1]]) as usize
}

// The largest byte, 0 of none: one test then holds for all of them. It is a maximum, and not a search, so that it is worked out many bytes at a time.
fn largest(bytes: &[u8]) -> u8
    ensures { Largest bytes.now result }
{
    let mut most: u8 = 0;
    for b in bytes {
        most = most.max(*b);
    }
    most
}

// The largest byte that a cell can have: 3 decisions a part, or 5 where it has two bits.
fn most_byte(mode: u8) -> u8
    ensures { result + 1 ≡ rule.choices (part_bits mode) * rule.choices (part_bits mode) }
{
    if modes::part_bits(mode) == 1 { 8 } else { 24 }
}

// Whether pieces of a grid of the mode leave this state.
fn is_state(mode: u8, state: &[u8]) -> bool
    ensures { result ≡ is_state mode state.now }
{
    if state.len() != 28674 {
        return false;
    }
    let n = seen(state);
    if n > 4096 * symbol_count(mode) {
        return false;
    }
    if largest(&state[2..2 + n]) > most_byte(mode) {
        return false;
    }
    largest(&state[2 + n..]) == 0
}

// How many cells have come, where pieces of a grid of the mode leave this state.
fn come(mode: u8, state: &[u8]) -> Result<usize, Refusal>
    ensures state { IfOk result (λ n. T (is_state mode state.now) × (n ≡ rule.seen state.now)) }
    ensures no_state { IfErr result (λ e. (e ≡ NoSuchState) × (is_state mode state.now ≡ false)) }
{
    if is_state(mode, state) {
        Ok(seen(state))
    } else {
        Err(Refusal::NoSuchState)
    }
}

// What is at fault in the profile, 22, 7, 16, the first that fits.
pub(crate) fn feeding(
    p: Profile,
    state: &[u8],
    firsts: usize,
    seconds: usize,
) -> Result<(), Refusal>
    ensures { answer_of result ≡ rule.feeding p state.now firsts seconds }
{
    profile::fault(p)?;
    let come = come(p.mode, state)?;
    if firsts != seconds {
        return Err(Refusal::WrongCells);
    }
    if firsts > 4096 * symbol_count(p.mode) - come {
        return Err(Refusal::PastEnd);
    }
    Ok(())
}

// What is at fault in the profile, 22, 6, 17, the first that fits.
pub(crate) fn asking(p: Profile, state: &[u8], bytes: usize) -> Result<(), Refusal>
    ensures { answer_of result ≡ rule.asking p state.now bytes }
{
    profile::fault(p)?;
    let come = come(p.mode, state)?;
    if bytes != 122 * (p.k as usize) {
        return Err(Refusal::WrongData);
    }
    if come < 4096 * symbol_count(p.mode) {
        return Err(Refusal::Unfinished);
    }
    Ok(())
}

// Puts the bytes of a piece's cells after those that have come, and counts them.
pub(crate) fn put(p: Profile, state: &mut [u8], firsts: &[f32], seconds: &[f32])
    requires { (length state.old ≡ state_bytes) × (length firsts.now ≡ length seconds.now) × (rule.seen state.old + length firsts.now + 2 ≤ state_bytes) }
    ensures { Put p firsts.now seconds.now state.old state.new }
{
    let from = seen(state);
    let end = from + firsts.len();
    deciding::decide_cells(
        p.mode,
        p.level,
        p.floor,
        firsts,
        seconds,
        &mut state[2 + from..2 + end],
    )
    .unwrap();
    state[..2].copy_from_slice(&(end as u16).to_be_bytes());
}
