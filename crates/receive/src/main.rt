// Receives one block. Standard input: two bytes of profile length, the profile, a mark mask of two bytes, then for each symbol 4096 first
// parts and 4096 second parts, four bytes each, all high byte first. Standard output: number and lost mask, then each packet and its reason;
// what a number other than 0 means goes to standard error. Where the number is 0 and there is an argument, the data goes to the file that it
// names. Of the cells it holds one symbol's at a time.
#![tactic(auto)]

mod file;

ghost use Rattle.std.specs.Prelude.{◌<◌, ◌≤◌};

use manners::{PATH_MAX, Program, Request, Said, Stop, read_full};
use rules::{Profile, Receipt, Refusal};
use std::fmt;

// Bytes of one symbol's first parts, or second parts.
const PARTS: usize = 16_384;

// Bytes of the state that feeding keeps: how many cells have come, and a byte for each cell of the largest grid.
const STATE: usize = 28_674;

// What input ends before that ends inside what stands before the cells.
const BEFORE: &str = "the mark mask does";

// Reads a number of two bytes.
fn read_pair(program: Program<'_>) -> Result<u16, Stop> {
    let mut two = [0u8; 2];
    program.read_whole(&mut two, BEFORE)?;
    Ok(u16::from_be_bytes(two))
}

// How many bytes of cells are due. Program and profile go together from here on: both are copied values that no fact joins, and a struct would only rename them.
fn due(p: Profile) -> usize {
    2 * PARTS * modes::symbol_count(p.mode)
}

// Cells that end after so many bytes are refused, unless the input did not end.
fn cut(program: Program<'_>, p: Profile, came: usize) -> Result<(), Stop> {
    program.input_ended()?;
    let refusal = Refusal::WrongCells;
    program.refuse_length(refusal, came as u64, due(p) as u64);
    Err(Stop::Refused(refusal))
}

// Reads one symbol's first or second parts, which stand behind so many bytes of cells. compare's loop is alike, and keeps patterns: what both have in common is
// one line.
fn read_parts(program: Program<'_>, p: Profile, before: usize, list: &mut [f32]) -> Result<(), Stop>
    requires { before ≤ 229376 }
{
    let mut bytes = [0u8; PARTS];
    let came = read_full(&mut program.rt.stdin(), &mut bytes);
    if came < PARTS {
        return cut(program, p, before + came);
    }
    let (fours, _) = bytes.as_chunks::<4>();
    for (part, four) in list.iter_mut().zip(fours) {
        *part = parts::part_of_bits(u32::from_be_bytes(*four));
    }
    Ok(())
}

// Reads symbol y, and feeds its cells as one piece.
fn feed_one(program: Program<'_>, p: Profile, y: usize, state: &mut [u8]) -> Result<(), Stop>
    requires { y < 7 }
{
    let mut firsts = [0f32; 4096];
    let mut seconds = [0f32; 4096];
    let before = 2 * PARTS * y;
    read_parts(program, p, before, &mut firsts)?;
    read_parts(program, p, before + PARTS, &mut seconds)?;
    receiving::feed(p, state, &firsts, &seconds).map_err(|refusal| {
        program.refuse(refusal);
        Stop::Refused(refusal)
    })
}

// Nothing comes after the cells.
fn end_cells(program: Program<'_>, p: Profile) -> Result<(), Stop> {
    if read_full(&mut program.rt.stdin(), &mut [0u8; 1]) == 0 {
        program.input_ended()?;
        return Ok(());
    }
    let refusal = Refusal::WrongCells;
    program.refuse_surplus(refusal, due(p) as u64, due(p) as u64);
    Err(Stop::Refused(refusal))
}

// Writes the data to the file that the argument names, where there is one.
fn keep(program: Program<'_>, data: &[u8]) -> Result<(), Said> {
    if program.arg_count() < 2 {
        return Ok(());
    }
    let mut room = [0u8; PATH_MAX];
    let path = program.tried("write FILE", program.word_in(1, &mut room))?;
    file::keep(program, path, data)
}

// The refusal in what asking answered; none where the number is no refusal of asking's.
fn refused(receipt: Receipt) -> Option<Refusal> {
    let place = receipt.place;
    match receipt.number {
        6 => Some(Refusal::WrongData),
        9 => Some(Refusal::TooManyLost),
        10 => Some(Refusal::NoCodeword),
        17 => Some(Refusal::Unfinished),
        22 => Some(Refusal::NoSuchState),
        40 => Some(Refusal::Mask(place)),
        41 => Some(Refusal::Level(place)),
        42 => Some(Refusal::Mode(place)),
        43 => Some(Refusal::K(place)),
        44 => Some(Refusal::Seed(place)),
        45 => Some(Refusal::Floor(place)),
        46 => Some(Refusal::Twins(place)),
        _ => None,
    }
}

// Says why the packets gave no data.
fn refuse(program: Program<'_>, refusal: Refusal, lost: u16, k: u8) -> Said {
    match refusal {
        Refusal::TooManyLost => {
            let r = 16u32.saturating_sub(u32::from(k));
            program.refuse_lost(refusal, lost.count_ones(), r)
        }
        _ => program.refuse(refusal),
    }
}

// Asks for what was fed, and keeps the data at number 0 alone: where it can't be kept, that was said, and the report comes all the same.
fn ask(program: Program<'_>, p: Profile, marks: u16, state: &[u8]) -> Receipt {
    let mut room = [0u8; 1708];
    let n = room.len().min(122 * usize::from(p.k));
    let receipt = receiving::ask(p, marks, state, &mut room[..n]);
    let _ = match (receipt.number, refused(receipt)) {
        (0, _) => keep(program, &room[..n]),
        (_, Some(refusal)) => Err(refuse(program, refusal, receipt.lost, p.k)),
        (number, None) => Err(program.say(format_args!("{number} refused"))),
    };
    receipt
}

// Feeds the symbols in their order, and asks for the data once the input has ended with them.
fn receive_cells(program: Program<'_>, p: Profile, marks: u16) -> Result<Receipt, Stop> {
    let mut state = [0u8; STATE];
    for y in 0..modes::symbol_count(p.mode) {
        feed_one(program, p, y, &mut state)?;
    }
    end_cells(program, p)?;
    Ok(ask(program, p, marks, &state))
}

// Reads the profile to its place and the mark mask, then judges the profile, then the cells.
fn receive(program: Program<'_>) -> Result<Receipt, Stop> {
    let length = read_pair(program)?;
    let mut room = [0u8; 65536];
    let bytes = &mut room[..usize::from(length)];
    program.read_whole(bytes, BEFORE)?;
    let marks = read_pair(program)?;
    let p = profile::read(bytes).map_err(|refusal| {
        program.refuse_profile(refusal, bytes);
        Stop::Refused(refusal)
    })?;
    receive_cells(program, p, marks)
}

// Number and lost mask, then each packet and its reason.
#[derive(Clone, Copy)]
struct Report(Receipt);

impl fmt::Display for Report {
    fn fmt<W: fmt::Write>(&self, f: &mut fmt::Formatter<W>) -> fmt::Result {
        writeln!(f, "{} {}", self.0.number, self.0.lost)?;
        for (p, reason) in self.0.reasons.iter().enumerate() {
            writeln!(f, "{p} {reason}")?;
        }
        Ok(())
    }
}

// Receives, and reports, unless the input can't be read.
fn run(program: Program<'_>) -> Result<(), Said> {
    match receive(program) {
        Ok(receipt) => program.print(Report(receipt)),
        Err(Stop::Refused(refusal)) => program.print(Report(Receipt::from(refusal))),
        Err(Stop::Unread) => Err(Said),
    }
}

const HELP: &[u8] = b"receive [FILE] < input > report

Receives one block of MediaFLO cells by hard decisions.

Standard input    two bytes of profile length, the profile, a mark mask of two bytes (bit p: packet p counts as lost), then for each
                  symbol (7, 5, 4, 3 and 2 in modes 0 to 4) its 4096 first parts and its 4096 second parts, each an f32 of four bytes;
                  all numbers high byte first. profile_text makes a profile.
Standard output   17 lines: the number and the lost mask, then each packet and the reason why it was lost (0: it was not), all decimal.
FILE              at number 0 the data, 122 x K bytes. It is made beside FILE and takes its name when it is whole.
                  For a name that begins with a dash say ./-name.
Standard error    what a number other than 0 means, with the byte of the profile where a value is outside its range, or the slot that
                  has seed and mask of an earlier one in its symbol.
                  Trouble: what can't be read or written.

bin/receive ends with 0 when the number is 0, 1 at any other number, 2 for a wrong use or trouble.
";

// What is in the way was said: bin/ gives the exit status by it.
fn main(rt: HostRuntime) {
    let program = Program {
        rt,
        name: "receive",
    };
    let _ = match program.asked() {
        Request::Nothing | Request::Word => run(program),
        Request::Help => program.write(HELP),
        _ => Err(program.usage("receive [FILE] < input > report; receive --help says more")),
    };
}
