// Decisions of parts, and points, of QPSK and of 16QAM.
use super::part::{self, INFINITY, LEVEL, NAN, Part};
use std::io;

// In QPSK: zeros, the least and the largest parts, ones, infinities and NaNs.
fn one_bit(rt: &impl Print) -> io::Result<()> {
    for bits in [
        0x0000_0000,
        0x8000_0000,
        0x0000_0001,
        0x8000_0001,
        0x3F80_0000,
        0xBF80_0000,
        0x7F7F_FFFF,
        0xFF7F_FFFF,
        0x7F80_0000,
        0xFF80_0000,
        0x7FC0_0000,
        0xFFC0_0001,
        0x7F80_0001,
        0xFFFF_FFFF,
    ] {
        let part = Part {
            mode: 0,
            level: LEVEL,
            floor: 0,
            bits,
        };
        println!(rt; "decide {part}")?;
    }
    Ok(())
}

// Of 16QAM at a level.
fn both_signs(rt: &impl Print, level: u32, bits: u32) -> io::Result<()> {
    let part = Part {
        mode: 2,
        level,
        floor: 0,
        bits,
    };
    for part in part.both_signs() {
        println!(rt; "decide two {level:08x} {part}")?;
    }
    Ok(())
}

// Zeros, both lines and the parts next to them, what is sent, infinities and NaNs.
fn around(rt: &impl Print, level: u32, line: u32, outer: u32) -> io::Result<()> {
    let ends = [level, outer, INFINITY, NAN, 0x7F80_0001];
    for bits in [0, 1].into_iter().chain(part::beside(line)).chain(ends) {
        both_signs(rt, level, bits)?;
    }
    Ok(())
}

// The pattern of each part, and what it decides to.
fn point(rt: &impl Print, mode: u8, bits: [u8; 4]) -> io::Result<()> {
    let level = parts::part_of_bits(LEVEL);
    let p = cells::point_of(mode, level, bits);
    let d = deciding::decide_point(mode, level, 0.0, p);
    println!(rt;
        " {:08x} {:08x} {} {}",
        part::pattern(p.first),
        part::pattern(p.second),
        d.first,
        d.second
    )
}

fn points(rt: &impl Print) -> io::Result<()> {
    for [s0, s1] in [[0, 0], [0, 1], [1, 0], [1, 1]] {
        print!(rt; "point {s0} {s1}")?;
        point(rt, 0, [s0, s1, 0, 0])?;
    }
    Ok(())
}

fn points_of_four(rt: &impl Print) -> io::Result<()> {
    for n in 0..16u8 {
        let bits = [n / 8, n / 4 % 2, n / 2 % 2, n % 2];
        let [s0, s1, s2, s3] = bits;
        print!(rt; "point four {s0} {s1} {s2} {s3}")?;
        point(rt, 2, bits)?;
    }
    Ok(())
}

pub fn all(rt: &impl Print) -> io::Result<()> {
    one_bit(rt)?;
    points(rt)?;
    around(rt, LEVEL, 0x3FB5_04F3, 0x4007_C3B6)?;
    around(rt, 0x0080_0000, 0x0100_0000, 0x0140_0000)?;
    around(rt, 0x7EAA_AAAA, 0x7F2A_AAAA, 0x7F7F_FFFF)?;
    points_of_four(rt)
}
