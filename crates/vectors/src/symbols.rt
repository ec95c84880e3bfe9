// What the cells of a symbol carry.
use super::print;
use rules::PointOf;
use std::{array, io};

// By the slot and the point, 0 for nothing; there are fewer than 64 slots, and fewer than 512 points in each.
fn code(mode: u8, s: usize, c: usize) -> u8 {
    match cells::carried(mode, s, c) {
        None => 0,
        Some(PointOf { slot, point }) => ((slot % 64 * 500 + point % 512) % 251 + 1) as u8,
    }
}

fn nonzero(row: &[u8]) -> usize {
    row.iter().filter(|code| **code != 0).count()
}

// How many cells carry a point, and what all of them carry.
fn symbol(rt: &impl Print, mode: u8, s: usize) -> io::Result<()> {
    let row: [u8; 4096] = array::from_fn(|c| code(mode, s, c));
    let carrying = nonzero(&row);
    println!(rt; "cells {mode} {s} {carrying} {:04x}", print::word_of(&row))
}

fn cell(rt: &impl Print, mode: u8, s: usize, c: usize) -> io::Result<()> {
    print!(rt; "cell {mode} {s} {c} ")?;
    match cells::carried(mode, s, c) {
        None => println!(rt; "nothing"),
        Some(PointOf { slot, point }) => println!(rt; "{slot} {point}"),
    }
}

// Those beside the places 0, 249, 250 and 499 of interlaces 0 and 1, and the unused one.
fn edges(rt: &impl Print, mode: u8, s: usize) -> io::Result<()> {
    for c in [48, 49, 2040, 2041, 2048, 2049, 2056, 4041, 4047, 4048, 4049] {
        cell(rt, mode, s, c)?;
    }
    Ok(())
}

// Whole symbols of a mode, and the edges in some.
fn in_mode(rt: &impl Print, mode: u8, whole: &[usize], edged: &[usize]) -> io::Result<()> {
    whole.iter().try_for_each(|s| symbol(rt, mode, *s))?;
    edged.iter().try_for_each(|s| edges(rt, mode, *s))
}

pub fn all(rt: &impl Print) -> io::Result<()> {
    in_mode(rt, 0, &[0, 1, 5, 6, 7], &[0, 6])?;
    in_mode(rt, 1, &[0, 3, 4, 5], &[4])?;
    in_mode(rt, 2, &[0, 2, 3, 4], &[3])?;
    in_mode(rt, 3, &[0, 1, 2, 3], &[2])?;
    in_mode(rt, 4, &[0, 1, 2], &[1])
}
