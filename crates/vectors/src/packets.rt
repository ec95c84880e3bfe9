// Packets' bits, and the judgement on flipped ones.
use super::print::{self, CheckWord, Digits};
use super::rows;
use std::io;

// The check word of all 1000 bits, which is the same for every packet; the first 16, the last data bits, the check bits, and the zeros.
fn packet_of(rt: &impl Print, name: &str, bytes: [u8; 122]) -> io::Result<()> {
    let x = packet::bits_of(bytes);
    let s = &x[..];
    println!(rt;
        "packet {name} {} {} {} {} {}",
        CheckWord(s),
        Digits(&s[..16]),
        Digits(&s[968..976]),
        Digits(&s[976..992]),
        Digits(&s[992..])
    )
}

// Whether the check bits and the reserved bits are right, and the first and the last byte; with one of the bits that are judged flipped.
fn flipped(rt: &impl Print, at: usize, x: &[u8; 1000]) -> io::Result<()> {
    let mut y = [0u8; 994];
    y.copy_from_slice(&x[..994]);
    rows::flip(&mut y, at);
    let bytes = packet::bytes_of(y);
    println!(rt;
        "packet flipped {at} {} {} {:02x} {:02x}",
        packet::check_right(y) as u8,
        packet::reserved_right(y) as u8,
        bytes[0],
        bytes[121]
    )
}

fn flips(rt: &impl Print, bytes: [u8; 122]) -> io::Result<()> {
    let x = packet::bits_of(bytes);
    for at in [0, 975, 976, 991, 992, 993, 994] {
        flipped(rt, at, &x)?;
    }
    Ok(())
}

pub fn all(rt: &impl Print) -> io::Result<()> {
    println!(rt; "packet digits {:04x}", print::word_of(b"123456789"))?;
    packet_of(rt, "zeros", [0u8; 122])?;
    packet_of(rt, "ones", [255u8; 122])?;
    let bytes = rows::by_formula();
    packet_of(rt, "formula", bytes)?;
    flips(rt, bytes)
}
