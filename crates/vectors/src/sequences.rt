// The turbo interleaver's addresses, and the scrambler's outputs.
use super::print::{self, CheckWord, Digits};
use std::io;

// The check word of all, ten bits each, and the first and the last five.
fn addresses(rt: &impl Print) -> io::Result<()> {
    let kept = interleaver::addresses();
    let mut bits = [0u8; 9940];
    print::put_bits(10, &kept, &mut bits);
    print!(rt; "interleaver {}", CheckWord(&bits))?;
    for address in kept[..5].iter().chain(&kept[989..]) {
        print!(rt; " {address}")?;
    }
    println!(rt)
}

fn outputs(rt: &impl Print, seed: u32, mask: u32) -> io::Result<()> {
    let mut x = [0u8; 1000];
    slots::scramble(seed, mask, &mut x);
    println!(rt;
        "scrambler {seed:05x} {mask:05x} {} {}",
        CheckWord(&x),
        Digits(&x[..21])
    )
}

fn masks(rt: &impl Print, seed: u32) -> io::Result<()> {
    for mask in [0x00001, 0x80000, 0x5A5A5] {
        outputs(rt, seed, mask)?;
    }
    Ok(())
}

// A doubtful bit stays doubtful.
fn doubtful(rt: &impl Print) -> io::Result<()> {
    let mut x = [0u8, 1, 2, 0, 1, 2, 0, 1, 2, 0, 1, 2];
    slots::scramble(0x12345, 0x5A5A5, &mut x);
    println!(rt; "scrambler doubtful {}", Digits(&x))
}

pub fn all(rt: &impl Print) -> io::Result<()> {
    addresses(rt)?;
    for seed in [1, 0xFFFFF, 0x12345] {
        masks(rt, seed)?;
    }
    doubtful(rt)
}
