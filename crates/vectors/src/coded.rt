// Whole coded packets in each mode, and the judgement on one with a flipped bit.
ghost use Rattle.std.specs.Prelude.{◌≡◌, ◌≤◌, true};
ghost use Rattle.rules.specs.Answers.{coding_number};
ghost use Rattle.rules.specs.Modes.{is_mode};

use super::print::{self, CheckWord, Digits};
use super::rows;
use rules::CodingError;
use std::io;

// The paper number of an answer: that being done has the number 0 is said here.
fn number(a: Result<(), CodingError>) -> u32
    ensures { result ≡ coding_number a }
{
    match a {
        Ok(()) => 0,
        Err(CodingError::WrongMode) => 42,
        Err(CodingError::WrongLength) => 6,
    }
}

// Coded into a row of n bits: the answer's number, the check word of all bits, and the first and last of them.
fn coded(rt: &impl Print, name: &str, mode: u8, bytes: &[u8], n: usize) -> io::Result<()>
    requires { (32 ≤ n) × (n ≤ 3000) }
{
    let mut room = [0u8; 3000];
    let answer = number(turbo::code(mode, bytes, &mut room[..n]));
    println!(rt;
        "coded {name} {mode} {answer} {} {} {}",
        CheckWord(&room[..n]),
        Digits(&room[..32]),
        Digits(&room[n - 32..n])
    )
}

fn in_modes(rt: &impl Print, name: &str, bytes: &[u8]) -> io::Result<()> {
    for mode in 0..5 {
        coded(rt, name, mode, bytes, modes::packet_bits(mode))?;
    }
    Ok(())
}

// Bytes too few, a row too short, and no mode.
fn refused(rt: &impl Print, bytes: &[u8; 122]) -> io::Result<()> {
    coded(rt, "short", 1, &bytes[..121], 2000)?;
    coded(rt, "room", 0, bytes, 2999)?;
    coded(rt, "mode", 5, bytes, 2000)
}

// The reason, and the check word of the bytes, with up to two of the packet's bits flipped: a place past the last is none, and is printed as it is.
fn judged(rt: &impl Print, mode: u8, places: [usize; 2], bytes: &[u8; 122]) -> io::Result<()>
    requires { is_mode mode ≡ true }
{
    let mut v = [0u8; 3000];
    let sent = &mut v[..modes::packet_bits(mode)];
    turbo::code(mode, bytes, sent).unwrap();
    for at in places {
        rows::flip(sent, at);
    }
    let (reason, decided) = match turbo::judge(mode, v) {
        Ok(decided) => (0, decided),
        Err(reason) => (reason.number(), [0u8; 122]),
    };
    let [at, also] = places;
    println!(rt;
        "judged {at} {also} {reason} {:04x}",
        print::word_of(&decided)
    )
}

// Of the places one is the first reserved bit's.
fn judgements(rt: &impl Print, mode: u8, reserved: usize, bytes: &[u8; 122]) -> io::Result<()>
    requires { is_mode mode ≡ true }
{
    let n = modes::packet_bits(mode);
    for places in [
        [n, n],
        [0, n],
        [4, n],
        [n - 1, n],
        [reserved, n],
        [0, reserved],
    ] {
        judged(rt, mode, places, bytes)?;
    }
    Ok(())
}

pub fn all(rt: &impl Print) -> io::Result<()> {
    let bytes: [u8; 122] = rows::by_formula();
    in_modes(rt, "zeros", &[0u8; 122])?;
    in_modes(rt, "ones", &[255u8; 122])?;
    in_modes(rt, "formula", &bytes)?;
    refused(rt, &bytes)?;
    judgements(rt, 1, 1939, &bytes)?;
    judgements(rt, 4, 1455, &bytes)
}
