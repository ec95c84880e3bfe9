// How the programs speak, and what they share on their input and output. What each writes on standard error has one of eight forms, by which `bin/` knows the exit status:
//
//     N words                          a refusal: the documents' number, and what it means
//     N at byte P: words               a refusal that names a field of the profile's bytes: which of its numbers, what it is, what is allowed
//     N at slot T: words               a refusal that names a block slot of the profile: which earlier one it repeats, and in what
//     N at line L: words               a refusal that names a report of those that totals reads: the line where it begins
//     NAME: line L: words              a refused text of profile_text's or totals'; `profile_text: text: words` where no line is at fault
//     NAME: cannot words               trouble: input that can't be read, output that can't be written
//     usage: words                     words that the program does not take
//     compare: cells differ            no trouble: what was compared isn't the same. `bin/` keeps this line for itself
//
// A program that did what was asked says nothing else there.
#![tactic(auto)]

pub mod field;
mod refuse;
pub mod twin;
pub mod words;

ghost use Rattle.std.specs.Prelude.{◌≡◌, ◌≤◌, ◌⊎◌, length, IfOk, IfErr, Ok, is_ok};

use rules::Refusal;
use std::env::{Env, FillError};
use std::fmt::{Display, Write as _};
use std::io::{Error, ErrorKind, Read};
use std::{fmt, io};
use words::{SystemWords, Text};

// Room for a path: the longest that the system takes has a byte less, for the zero that ends it there.
pub const PATH_MAX: usize = 4096;

// Room for text that is handed to the system in one piece, as a reader that stops and a line beside others' lines want it: all totals, and a line that names
// the longest path. What finds no room goes in the pieces that std makes of it.
const PIECE: usize = 5120;

// The system's numbers for a word that is not there, and for one that is too long.
const EINVAL: i32 = 22;

pub const ENAMETOOLONG: i32 = 36;

// A program as it speaks.
#[derive(Clone, Copy)]
pub struct Program<'a> {
    pub rt: HostRuntime,
    pub name: &'a str,
}

// What is in the way was said: nothing is left to say.
#[derive(Clone, Copy, Debug, PartialEq, Eq)]
pub struct Said;

impl fmt::Display for Said {
    fn fmt<W: fmt::Write>(&self, f: &mut fmt::Formatter<W>) -> fmt::Result {
        f.write_str("what is in the way was said")
    }
}

impl std::error::Error for Said {}

// What ends the reading of input, and was said: a refusal, or that the input can't be read.
#[derive(Clone, Copy, Debug, PartialEq, Eq)]
pub enum Stop {
    Refused(Refusal),
    Unread,
}

// Only input that can't be read is said without a refusal.
impl From<Said> for Stop {
    fn from(_: Said) -> Stop {
        Stop::Unread
    }
}

impl From<Stop> for Said {
    fn from(_: Stop) -> Said {
        Said
    }
}

// What the words after a program's name are.
#[derive(Clone, Copy, Debug, PartialEq, Eq)]
pub enum Request {
    Nothing,
    Help,
    Word,
    TwoWords,
    Wrong,
}

// The words after the program's name.
impl Program<'_> {
    // What they are.
    pub fn asked(self) -> Request {
        match self.arg_count() {
            0 | 1 => Request::Nothing,
            2 if self.is_help() => Request::Help,
            2 if self.is_word(1) => Request::Word,
            3 if self.is_word(1) && self.is_word(2) => Request::TwoWords,
            _ => Request::Wrong,
        }
    }

    // How many there are, with the program's name: beyond 4 they are not counted.
    pub fn arg_count(self) -> usize {
        (0..4).take_while(|i| self.is_given(*i)).count()
    }

    // Whether there is an argument i.
    fn is_given(self, i: usize) -> bool {
        !matches!(self.rt.arg(i, &mut [0u8; 1]), Err(FillError::NotPresent))
    }

    // Whether the first word is --help.
    fn is_help(self) -> bool {
        matches!(self.word_in(1, &mut [0u8; 8]), Ok(b"--help"))
    }

    // Whether argument i can be a word of a program's: it is not empty, and only --help begins with a dash. Of a word that is longer than the buffer
    // the first byte is there all the same.
    fn is_word(self, i: usize) -> bool {
        let mut first = [0u8; 1];
        let is_empty = matches!(self.rt.arg(i, &mut first), Ok(0));
        !is_empty && first != *b"-"
    }

    // Puts argument i at the start of a buffer, and answers its length, or why it can't.
    pub fn word(self, i: usize, room: &mut [u8]) -> io::Result<usize>
        ensures { IfOk result (λ n. n ≤ length room.new) }
    {
        self.rt.arg(i, room).map_err(|e| match e {
            FillError::TooLong => Error::from_raw_os_error(ENAMETOOLONG),
            FillError::NotPresent => Error::from_raw_os_error(EINVAL),
        })
    }

    // Argument i, put at the start of a buffer, or why it can't be.
    pub fn word_in<'b>(self, i: usize, room: &'b mut [u8]) -> io::Result<&'b [u8]>
        ensures { IfOk result (λ word. length word.now ≤ length room.old) }
    {
        let n = self.word(i, room)?;
        Ok(&room[..n])
    }
}

// What a program says on standard error.
impl Program<'_> {
    // A line there, in one piece; where that can't be written, there is nobody to tell.
    pub fn say(self, line: impl Display + Drop) -> Said {
        let mut piece = Text::<PIECE>::new();
        let _ = match writeln!(piece, "{line}") {
            Ok(()) => self.rt.stderr().write_all(piece.as_bytes()),
            Err(_) => self.rt.eprintln(line),
        };
        Said
    }

    // The line for a use that a program does not take.
    pub fn usage(self, words: &str) -> Said {
        self.say(format_args!("usage: {words}"))
    }

    // That what a program compared isn't the same: its result, for the exit status.
    pub fn differ(self) -> Said {
        self.say(format_args!("{}: cells differ", self.name))
    }

    // Trouble, by words: what the program can't do, and why.
    pub fn cannot_since(self, what: impl Display + Drop, why: &str) -> Said {
        self.say(format_args!("{}: cannot {what}: {why}", self.name))
    }

    // Trouble, by the system's error: what the program can't do.
    pub fn cannot(self, what: impl Display + Drop, e: &Error) -> Said {
        self.say(format_args!("{}: cannot {what}: {}", self.name, SystemWords(e)))
    }

    // What a program tried gave; trouble is said.
    pub fn tried<T>(self, what: impl Display + Drop, outcome: io::Result<T>) -> Result<T, Said>
        ensures value { IfOk result (λ x. outcome ≡ Ok x) }
        ensures same { is_ok result ≡ is_ok outcome }
    {
        outcome.map_err(|e| self.cannot(what, &e))
    }
}

// Standard output and standard input.
impl Program<'_> {
    // Writes bytes.
    pub fn write(self, bytes: &[u8]) -> Result<(), Said> {
        self.tried("write standard output", self.rt.stdout().write_all(bytes))
    }

    // Writes text, in one piece.
    pub fn print(self, text: impl Display + Drop) -> Result<(), Said> {
        let mut piece = Text::<PIECE>::new();
        let written = match write!(piece, "{text}") {
            Ok(()) => self.rt.stdout().write_all(piece.as_bytes()),
            Err(_) => self.rt.print(text),
        };
        self.tried("write standard output", written)
    }

    // That standard input, of which fewer bytes came than were asked for, has ended: a read answers 0 there. Where it can't be read, that is said.
    pub fn input_ended(self) -> Result<(), Said> {
        self.tried("read standard input", self.rt.stdin().read(&mut [0u8; 1]))?;
        Ok(())
    }

    // Fills a buffer from standard input: input that ends before is refused, as ending before what is named does, unless it did not end.
    pub fn read_whole(self, room: &mut [u8], what: &str) -> Result<(), Stop>
        ensures { IfErr result (λ stop. (stop ≡ Stop.Unread) ⊎ (stop ≡ Stop.Refused Refusal.EndsInField)) }
    {
        if read_full(&mut self.rt.stdin(), room) == room.len() {
            return Ok(());
        }
        if self.input_ended().is_err() {
            return Err(Stop::Unread);
        }
        let refusal = Refusal::EndsInField;
        self.refuse_short_input(refusal, what);
        Err(Stop::Refused(refusal))
    }
}

// Reads until the buffer is full, the input ends or can't be read, and answers how many bytes it put at the start of the buffer. The loop stays, since
// std's read_exact does not say how many came.
pub fn read_full(from: &mut impl Read, room: &mut [u8]) -> usize
    ensures { result ≤ length room.new }
{
    let mut done = 0;
    while done < room.len() {
        match from.read(&mut room[done..]) {
            Ok(0) | Err(_) => return done,
            Ok(n) => done += n,
        }
    }
    done
}

// A path as std takes it, which opens no name that is not UTF-8.
pub fn named(path: &[u8]) -> io::Result<&str> {
    str::from_utf8(path).map_err(|_| Error::new(ErrorKind::InvalidInput, "the name is not UTF-8"))
}
