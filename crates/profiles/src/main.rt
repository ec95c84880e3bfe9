// Reads a table of profiles, each after two bytes of its length, and prints the number and the place that each is read with. What is read well is
// written again: then writing's number and place, the count, whether the bytes came back, and what writing answers with another last seed follow.
// stdin and stdout are made by outside/flo.py.
#![tactic(auto)]

ghost use Rattle.std.specs.Prelude.{◌<◌};

use rules::{Profile, Refusal};
use std::io::Read;
use std::{fmt, io};

// A call's number and place, zeros where it refuses nothing.
#[derive(Drop)]
struct Answer(Option<Refusal>);

impl fmt::Display for Answer {
    fn fmt<W: fmt::Write>(&self, f: &mut fmt::Formatter<W>) -> fmt::Result {
        match self.0 {
            None => f.write_str("0 0"),
            Some(refusal) => write!(f, "{} {}", refusal.number(), refusal.place()),
        }
    }
}

// What writing answers where the last of the 48 seeds is 1: it is one of the block's in mode 0, and in any other mode an unused one, which is to be zero.
fn with_last_seed(mut p: Profile) -> Answer {
    p.seeds[47] = 1;
    Answer(profile::write(p).err())
}

fn written_again(rt: &impl Print, bytes: &[u8], p: Profile) -> io::Result<()> {
    let written = profile::write(p);
    let (count, same) = match &written {
        Ok(w) => (w.count, w.as_bytes() == bytes),
        Err(_) => (0, false),
    };
    let word = if same { "same" } else { "" };
    print!(rt;
        "{} {count} {word} {}",
        Answer(written.err()),
        with_last_seed(p)
    )
}

fn judged(rt: &impl Print, bytes: &[u8]) -> io::Result<()> {
    let read = profile::read(bytes);
    print!(rt; "{} ", Answer(read.err()))?;
    if let Ok(p) = read {
        written_again(rt, bytes, p)?;
    }
    println!(rt)
}

// The length that two bytes say, high byte first; no entry is longer than 511.
fn length_of(head: [u8; 2]) -> usize
    ensures { result < 512 }
{
    (u16::from_be_bytes(head) % 512) as usize
}

// Whether the input had as many bytes as there is room for; they are then in it.
fn fills(input: &mut impl Read, room: &mut [u8]) -> io::Result<bool> {
    match input.read_exact(room) {
        Ok(()) => Ok(true),
        Err(e) if e.kind() == io::ErrorKind::UnexpectedEof => Ok(false),
        Err(e) => Err(e),
    }
}

// The table's next entry, if it has one.
fn entry<'a>(input: &mut impl Read, room: &'a mut [u8; 512]) -> io::Result<Option<&'a [u8]>> {
    let mut head = [0u8; 2];
    if !fills(input, &mut head)? {
        return Ok(None);
    }
    let bytes = &mut room[..length_of(head)];
    if !fills(input, bytes)? {
        return Ok(None);
    }
    Ok(Some(bytes))
}

// All entries, of a table that has at most so many.
fn table(rt: &impl Print, input: &mut impl Read, room: &mut [u8; 512]) -> io::Result<()> {
    for _ in 0..16_384 {
        match entry(input, room)? {
            Some(bytes) => judged(rt, bytes)?,
            None => return Ok(()),
        }
    }
    Ok(())
}

fn main(rt: HostRuntime) -> io::Result<()> {
    table(&rt, &mut rt.stdin(), &mut [0u8; 512])
}
