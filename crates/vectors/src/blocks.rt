// Parity of a block, lost packets restored, and what is refused.
ghost use Rattle.std.specs.Prelude.{◌≡◌, ◌≤◌, true, length};
ghost use Rattle.rules.specs.Outer.{is_k};

use super::{print, rows};
use std::{array, io};

// A block's packet p, of parity.
fn start_of(rt: &impl Print, k: u8, p: usize, packet: &[u8]) -> io::Result<()>
    requires { length packet.now ≡ 122 }
{
    println!(rt;
        "parity packet {k} {p} {:02x} {:02x} {:02x} {:02x}",
        packet[0], packet[1], packet[2], packet[121]
    )
}

fn parity(rt: &impl Print, k: u8) -> io::Result<()>
    requires { k ≤ 16 }
{
    let mut block: [u8; 1952] = rows::by_formula();
    let done = outer::number(outer::fill_parity(k, &mut block));
    let made = &block[122 * k as usize..];
    println!(rt; "parity {k} {done} {:04x}", print::word_of(made))?;
    for (p, packet) in (k as usize..).zip(made.chunks_exact(122)) {
        start_of(rt, k, p, packet)?;
    }
    Ok(())
}

// A block as it is sent.
fn sent(k: u8) -> [u8; 1952]
    requires { is_k k ≡ true }
{
    let mut block = rows::by_formula();
    outer::fill_parity(k, &mut block).unwrap();
    block
}

// What spoils byte i: all bytes of the packets of a lost mask, and one byte besides.
fn spoiling(lost: u16, altered: usize, i: usize) -> u8 {
    if i == altered {
        1
    } else if (lost >> (i / 122 % 16)) % 2 == 1 {
        90
    } else {
        0
    }
}

// The outcome, in how many bytes the block then differs from the one that was sent and from the one that was given, and its check word.
fn restored(
    rt: &impl Print,
    k: u8,
    sent: &[u8; 1952],
    lost: u16,
    altered: usize,
) -> io::Result<()> {
    let given: [u8; 1952] = array::from_fn(|i| sent[i] ^ spoiling(lost, altered, i));
    let mut block = given;
    let done = outer::number(outer::restore(k, lost, &mut block));
    let from_sent = rows::differing(sent, &block);
    let from_given = rows::differing(&given, &block);
    println!(rt;
        "restore {k} {lost:04x} {altered} {done} {from_sent} {from_given} {:04x}",
        print::word_of(&block)
    )
}

// Lost packets and an altered byte, of blocks with two, four and eight packets of parity: the byte at 1952 is none, and is printed as it is.
const OF_TWO: [(u16, usize); 9] = [
    (0, 1952),
    (0x24, 1952),
    (0x8001, 1952),
    (0x224, 1952),
    (0, 1708),
    (0, 1951),
    (0, 5),
    (0x4, 1951),
    (0x24, 1951),
];

const OF_FOUR: [(u16, usize); 4] = [(0xF, 1952), (0x8812, 1952), (0x9812, 1952), (0x802, 700)];

const OF_EIGHT: [(u16, usize); 6] = [
    (0xFF, 1952),
    (0xFF00, 1952),
    (0xAAAA, 1952),
    (0x1FF, 1952),
    (0x7F, 1951),
    (0, 976),
];

// One block as it is sent, spoiled in each of these ways.
fn restorations(rt: &impl Print, k: u8, spoiled: &[(u16, usize)]) -> io::Result<()>
    requires { is_k k ≡ true }
{
    let sent = sent(k);
    for (lost, altered) in spoiled {
        restored(rt, k, &sent, *lost, *altered)?;
    }
    Ok(())
}

// The outcomes of both calls on a block that is refused, and in how many bytes something was written.
fn refused(rt: &impl Print, k: u8, n: usize) -> io::Result<()>
    requires { n ≤ 1953 }
{
    let before = &[1u8; 1953][..n];
    let mut room = [1u8; 1953];
    let block = &mut room[..n];
    let filled = outer::number(outer::fill_parity(k, block));
    let restored = outer::number(outer::restore(k, 0, block));
    println!(rt;
        "refused {k} {n} {filled} {restored} {}",
        rows::differing(before, block)
    )
}

// The K and the length of each.
fn refusals(rt: &impl Print) -> io::Result<()> {
    for (k, n) in [
        (0, 1952),
        (7, 1952),
        (10, 1952),
        (16, 1952),
        (255, 1951),
        (8, 1951),
        (12, 1951),
        (12, 1953),
        (14, 1953),
    ] {
        refused(rt, k, n)?;
    }
    Ok(())
}

pub fn all(rt: &impl Print) -> io::Result<()> {
    for k in [8, 12, 14] {
        parity(rt, k)?;
    }
    restorations(rt, 14, &OF_TWO)?;
    restorations(rt, 12, &OF_FOUR)?;
    restorations(rt, 8, &OF_EIGHT)?;
    refusals(rt)
}
