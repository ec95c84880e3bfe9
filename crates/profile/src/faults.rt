// What is at fault in the numbers of a field's value, with its place; and twins.
ghost use Rattle.std.specs.Prelude.{◌≡◌};
ghost use Rattle.rules.specs.Bits.{pick};
ghost use Rattle.rules.specs.Answers.{answer_of, refusal_answer};
ghost use Rattle.rules.specs.Profile.{◌or◌, only, sends, twin_fault};
ghost use Rattle.rules.specs.Modes.{is_mode};

use rules::{Profile, Refusal};

// A test, and what refuses a value that fails it.
pub(crate) fn unless(good: bool, refusal: Refusal) -> Result<(), Refusal>
    ensures { answer_of result ≡ pick good (only 0) (refusal_answer refusal) }
{
    if good { Ok(()) } else { Err(refusal) }
}

// Field 3: a mode; and where it can't send D that is refused as field 2's value is, with the byte where it begins.
pub(crate) fn mode_fault(at: usize, mode: u8, level: f32) -> Result<(), Refusal>
    ensures { answer_of result ≡ pick (is_mode mode) (only 0) (record { number = 42; place = at })
        or pick (sends mode level) (only 0) (record { number = 41; place = 38 }) }
{
    unless(modes::is_mode(mode), Refusal::Mode(at))?;
    unless(ranges::sends(mode, level), Refusal::Level(38))
}

// The first slot that repeats an earlier one of its symbol.
pub(crate) fn twin_fault(p: Profile) -> Result<(), Refusal>
    ensures { answer_of result ≡ twin_fault p }
{
    let t = twins::first_repeat(p.mode, p.masks, p.seeds);
    unless(modes::slot_count(p.mode) <= t, Refusal::Twins(t))
}
