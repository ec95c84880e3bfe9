// The field's products, powers and inverses.
use super::print::{self, Bytes};
use field::Element;
use std::{array, io};

fn product(a: u8, b: u8) -> u8 {
    Element(a).product(Element(b)).0
}

fn inverse(a: u8) -> u8 {
    Element(a).inverse().0
}

fn products(rt: &impl Print) -> io::Result<()> {
    let row = [
        (0, 7),
        (1, 255),
        (2, 128),
        (128, 2),
        (255, 255),
        (73, 73),
        (56, 207),
        (207, 56),
        (238, 245),
        (245, 94),
        (94, 235),
        (235, 238),
    ]
    .map(|(a, b)| product(a, b));
    println!(rt; "field products{}", Bytes(&row))
}

// 17 a times b, at 256 a + b.
fn table(rt: &impl Print) -> io::Result<()> {
    let row: [u8; 4096] = array::from_fn(|i| product((i / 256 * 17) as u8, (i % 256) as u8));
    println!(rt; "field table {:04x}", print::word_of(&row))
}

fn powers(rt: &impl Print, a: u8) -> io::Result<()> {
    let row = [0, 1, 8, 44, 70, 152, 201, 231, 235, 246, 254, 255].map(|k| Element(a).power(k).0);
    println!(rt; "field powers{}", Bytes(&row))
}

// Some of them, and the check word of all.
fn inverses(rt: &impl Print) -> io::Result<()> {
    let some = [0, 1, 2, 3, 73, 254, 255].map(inverse);
    let row: [u8; 256] = array::from_fn(|i| inverse(i as u8));
    println!(rt;
        "field inverses{} {:04x}",
        Bytes(&some),
        print::word_of(&row)
    )
}

pub fn all(rt: &impl Print) -> io::Result<()> {
    products(rt)?;
    table(rt)?;
    for a in [2, 3, 0] {
        powers(rt, a)?;
    }
    inverses(rt)
}
