// Decisions at floors: around each end of each doubtful range, and of what is sent at the largest floor. The ends are those that outside/flo.py finds.
use super::part::{self, INFINITY, NAN, Part};
use std::io;

// A level, what is sent three times as far, and its floors, each with the ends in 16QAM of the range around twice the level; one where both are the same.
#[derive(Clone, Copy)]
struct Level {
    bits: u32,
    triple: u32,
    largest_floor: u32,
    floors: &'static [(u32, &'static [u32])],
}

fn both_signs(rt: &impl Print, part: Part) -> io::Result<()> {
    for part in part.both_signs() {
        println!(rt;
            "decide floor {} {:08x} {:08x} {part}",
            part.mode, part.level, part.floor
        )?;
    }
    Ok(())
}

// An end of a range, and the parts next to it.
fn beside(rt: &impl Print, end: Part) -> io::Result<()> {
    for bits in part::beside(end.bits) {
        both_signs(rt, Part { bits, ..end })?;
    }
    Ok(())
}

impl Level {
    fn part(self, mode: u8, floor: u32, bits: u32) -> Part {
        Part {
            mode,
            level: self.bits,
            floor,
            bits,
        }
    }

    // The range around zero ends at the floor.
    fn at_ends(self, rt: &impl Print, floor: u32, ends: &[u32]) -> io::Result<()> {
        beside(rt, self.part(0, floor, floor))?;
        beside(rt, self.part(2, floor, floor))?;
        for end in ends {
            beside(rt, self.part(2, floor, *end))?;
        }
        Ok(())
    }

    // What is sent, infinities and NaNs.
    fn sent(self, rt: &impl Print) -> io::Result<()> {
        for (mode, bits) in [
            (0, self.bits),
            (0, INFINITY),
            (0, NAN),
            (2, self.bits),
            (2, self.triple),
            (2, INFINITY),
            (2, NAN),
        ] {
            both_signs(rt, self.part(mode, self.largest_floor, bits))?;
        }
        Ok(())
    }

    fn print(self, rt: &impl Print) -> io::Result<()> {
        for (floor, ends) in self.floors {
            self.at_ends(rt, *floor, ends)?;
        }
        self.sent(rt)
    }
}

// Floors of +0.0 and the smallest subnormal, half the level and the one before it, some of the level's own.
const LEVELS: [Level; 5] = [
    Level {
        bits: 0x3FC0_0000,
        triple: 0x4090_0000,
        largest_floor: 0x3F40_0000,
        floors: &[
            (0x0000_0000, &[0x4040_0000]),
            (0x0000_0001, &[0x4040_0000]),
            (0x3F3F_FFFF, &[0x4010_0000, 0x4070_0000]),
            (0x3F40_0000, &[0x4010_0000, 0x4070_0000]),
        ],
    },
    Level {
        bits: 0x3F80_0000,
        triple: 0x4040_0000,
        largest_floor: 0x3F00_0000,
        floors: &[
            (0x0000_0000, &[0x4000_0000]),
            (0x0000_0001, &[0x4000_0000]),
            (0x3EFF_FFFF, &[0x3FC0_0000, 0x4020_0000]),
            (0x3F00_0000, &[0x3FC0_0000, 0x4020_0000]),
            (0x33A0_0000, &[0x3FFF_FFFF, 0x4000_0000]),
        ],
    },
    Level {
        bits: 0x3F80_0001,
        triple: 0x4040_0002,
        largest_floor: 0x3F00_0001,
        floors: &[
            (0x0000_0000, &[0x4000_0001]),
            (0x0000_0001, &[0x4000_0001]),
            (0x3F00_0000, &[0x3FC0_0002, 0x4020_0001]),
            (0x3F00_0001, &[0x3FC0_0002, 0x4020_0001]),
            (0x3E80_0000, &[0x3FE0_0002, 0x4010_0001]),
        ],
    },
    Level {
        bits: 0x0080_0000,
        triple: 0x0140_0000,
        largest_floor: 0x0040_0000,
        floors: &[
            (0x0000_0000, &[0x0100_0000]),
            (0x0000_0001, &[0x00FF_FFFF, 0x0100_0000]),
            (0x003F_FFFF, &[0x00C0_0001, 0x0120_0000]),
            (0x0040_0000, &[0x00C0_0000, 0x0120_0000]),
        ],
    },
    Level {
        bits: 0x7EAA_AAAA,
        triple: 0x7F7F_FFFF,
        largest_floor: 0x7E2A_AAAA,
        floors: &[
            (0x0000_0000, &[0x7F2A_AAAA]),
            (0x0000_0001, &[0x7F2A_AAAA]),
            (0x7E2A_AAA9, &[0x7F00_0000, 0x7F55_5554]),
            (0x7E2A_AAAA, &[0x7EFF_FFFF, 0x7F55_5554]),
        ],
    },
];

pub fn all(rt: &impl Print) -> io::Result<()> {
    for level in LEVELS {
        level.print(rt)?;
    }
    Ok(())
}
