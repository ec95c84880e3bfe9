// Compares two files of cells, as send writes them. Standard output: a line for each cell that differs, in rising order, with its symbol, its
// cell and the four patterns, first and second part of A, first and second part of B; at the end a line with the number of these cells. A
// refusal writes nothing there, so the lengths are taken first, and the files are read again then. Of the cells it holds one symbol's of each
// file at a time.
#![tactic(auto)]

mod file;

ghost use Rattle.std.specs.Prelude.{◌≤◌, ◌≡◌, length, IfOk};
ghost use Rattle.rules.specs.Compare.{grids, differing};

use file::{CELLS, CellFile, Symbol};
use manners::words::Text;
use manners::{PATH_MAX, Program, Request, Said};
use rules::Refusal;
use std::fmt;
use std::fmt::Write as _;

// Bytes of a symbol.
const SYMBOL: u64 = 32_768;

// Room for the lines that are written together, and more than a line has.
const ROOM: usize = 16_384;

const LINE: usize = 64;

// Puts the line for a difference. A number at a time: one format of all six costs a quarter more.
fn put_line(lines: &mut Text<ROOM>, six: &[u32; 6]) -> fmt::Result {
    let [symbol, cell, first_a, second_a, first_b, second_b] = *six;
    write!(lines, "{symbol}")?;
    lines.write_str(" ")?;
    write!(lines, "{cell}")?;
    for pattern in [first_a, second_a, first_b, second_b] {
        lines.write_str(" ")?;
        write!(lines, "{pattern:08x}")?;
    }
    lines.write_str("\n")
}

// Prints the lines for some differences, six numbers each. As many as find room go out in one piece: `print` would hand each line to the system alone. Where
// LINE bytes are free a line is never cut.
fn print_lines(program: Program<'_>, list: &[u32]) -> Result<(), Said> {
    let (sixes, _) = list.as_chunks::<6>();
    let mut lines = Text::<ROOM>::new();
    for six in sixes {
        let _ = put_line(&mut lines, six);
        if lines.room() < LINE {
            program.write(lines.as_bytes())?;
            lines.clear();
        }
    }
    program.write(lines.as_bytes())
}

// Compares symbol y of both files, and prints its lines: as many as the rule has differences.
fn compare_symbols(program: Program<'_>, y: u32, a: &Symbol, b: &Symbol) -> Result<u64, Said>
    ensures count { IfOk result (λ n. n ≡ length (differing (grids a.now.firsts a.now.seconds b.now.firsts b.now.seconds))) }
    ensures few { IfOk result (λ n. n ≤ 4096) }
{
    let mut list = [0u32; 6 * CELLS];
    let count = comparing::compare_from(
        y, &a.firsts, &a.seconds, &b.firsts, &b.seconds, &mut list,
    ).unwrap();
    print_lines(program, &list[..6 * count as usize])?;
    Ok(count)
}

// Reads symbol y of both files, and compares it.
fn compare_one(
    program: Program<'_>,
    a: &mut CellFile<'_>,
    b: &mut CellFile<'_>,
    y: u32,
) -> Result<u64, Said>
    ensures { IfOk result (λ n. n ≤ 4096) }
{
    let mut of_a = Symbol::new();
    let mut of_b = Symbol::new();
    a.read_symbol(&mut of_a)?;
    b.read_symbol(&mut of_b)?;
    compare_symbols(program, y, &of_a, &of_b)
}

// Compares the symbols in their order, and answers how many of their cells differ.
fn compare_all(
    program: Program<'_>,
    a: &mut CellFile<'_>,
    b: &mut CellFile<'_>,
    symbols: u32,
) -> Result<u64, Said> {
    let mut count = 0;
    for y in 0..symbols {
        count += compare_one(program, a, b, y)?;
    }
    a.ended()?;
    b.ended()?;
    Ok(count)
}

// Takes the lengths, which are refused or say how many symbols there are to compare, and prints the number of cells that differ; bin/ is told where there
// are some.
fn compare_files(
    program: Program<'_>,
    a: &mut CellFile<'_>,
    b: &mut CellFile<'_>,
) -> Result<(), Said> {
    let in_a = a.length()?;
    let in_b = b.length()?;
    if in_a != in_b {
        return Err(program.refuse_unequal(Refusal::UnequalGrids, in_a, in_b));
    }
    if in_a % SYMBOL != 0 {
        return Err(program.refuse_both(Refusal::WrongCells, in_a));
    }
    a.rewind()?;
    b.rewind()?;
    let count = compare_all(program, a, b, (in_a / SYMBOL) as u32)?;
    program.print(format_args!("{count}\n"))?;
    if count != 0 {
        program.differ();
    }
    Ok(())
}

// Takes the two words as paths.
fn compare(program: Program<'_>) -> Result<(), Said> {
    let mut path_a = [0u8; PATH_MAX];
    let mut path_b = [0u8; PATH_MAX];
    let n_a = program.tried("read A", program.word(1, &mut path_a))?;
    let n_b = program.tried("read B", program.word(2, &mut path_b))?;
    let mut a = CellFile::open(program, &path_a[..n_a])?;
    let mut b = CellFile::open(program, &path_b[..n_b])?;
    compare_files(program, &mut a, &mut b)
}

const HELP: &[u8] = b"compare A B

Lists each cell in which two grids of MediaFLO cells differ.

A, B              files of cells, as send writes them: for each symbol its 4096 first parts, then its 4096 second parts, each an f32 of
                  four bytes, high byte first. Each is read twice, so a pipe won't do. For a name that begins with a dash say ./-name.
Standard output   a line for each cell that differs, in rising order: its symbol and cell, decimal, both from 0, then the bits of four
                  parts, eight hexadecimal digits each: first and second part of A, first and second part of B. At the end a line with
                  the number of these cells. The bits count: +0.0 and -0.0 differ, and a NaN is the same only as the same bits.
                  A refusal writes nothing there.
Standard error    a refusal, its number and what it means: 18 A and B are not of one length, 7 they are not whole symbols.
                  Trouble: what can't be read or written.

bin/compare ends with 0 when no cell differs, 1 when one does, 2 when it refused and for a wrong use or trouble.
";

// What is in the way was said: bin/ gives the exit status by it.
fn main(rt: HostRuntime) {
    let program = Program {
        rt,
        name: "compare",
    };
    let _ = match program.asked() {
        Request::Help => program.write(HELP),
        Request::TwoWords => compare(program),
        _ => Err(program.usage("compare A B; compare --help says more")),
    };
}
