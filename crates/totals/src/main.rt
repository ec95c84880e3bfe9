// Adds up receive's reports. Standard input: any number of them, one after the other. Standard output: a line for each packet position, in rising
// order, with its eight totals, then a line with the number of received blocks. A report that isn't one, or that is refused, is named by its line on
// standard error, and nothing is written to standard output: so the totals are kept until the input has ended. Of the input it holds one buffer.
#![tactic(auto)]

mod report;
mod sums;

ghost use Rattle.std.specs.Prelude.{◌+◌, ◌≤◌, ◌<◌, length};

use manners::{Program, Request, Said};
use report::{Fault, Reader};
use std::io::Read;
use sums::Sums;

// Input of so many bytes is too long: its lines and blocks would no longer be sure to have numbers of 64 bits.
const MOST: u64 = 4_611_686_018_427_387_904;

// Says why a text is no reports.
fn say(program: Program<'_>, fault: Fault) -> Said {
    program.say(format_args!("{}: {fault}", program.name))
}

// How far the input is read: what was added up, and the report at hand.
#[derive(Drop)]
struct Progress<'a> {
    program: Program<'a>,
    sums: Sums,
    reader: Reader,
}

impl Progress<'_> {
    // Takes a byte: where a report is whole with it, it is added.
    fn take_byte(&mut self, b: u8) -> Result<(), Said>
        requires blocks { self.old.sums.blocks < 9223372036854775808 }
        requires line { self.old.reader.line < 9223372036854775808 }
        ensures blocks { self.new.sums.blocks ≤ self.old.sums.blocks + 1 }
        ensures line { self.new.reader.line ≤ self.old.reader.line + 1 }
    {
        let program = self.program;
        let whole = self.reader.next(b).map_err(|fault| say(program, fault))?;
        if let Some(report) = whole {
            self.sums
                .add(report.receipt)
                .map_err(|refusal| program.refuse_report(refusal, report.line))?;
        }
        Ok(())
    }

    // Takes some bytes, as long as nothing is in the way.
    fn take_bytes(&mut self, bytes: &[u8]) -> Result<(), Said>
        requires blocks { self.old.sums.blocks + length bytes.now < 9223372036854775808 }
        requires line { self.old.reader.line + length bytes.now < 9223372036854775808 }
        ensures blocks { self.new.sums.blocks ≤ self.old.sums.blocks + length bytes.now }
        ensures line { self.new.reader.line ≤ self.old.reader.line + length bytes.now }
    {
        for b in bytes {
            self.take_byte(*b)?;
        }
        Ok(())
    }

    // The input has ended.
    fn end(&self) -> Result<(), Said> {
        self.reader
            .ended()
            .map_err(|fault| say(self.program, fault))?;
        self.program.print(format_args!("{}", self.sums))
    }
}

// Reads the input to its end, and adds up what it has.
fn add_up(program: Program<'_>) -> Result<(), Said> {
    let mut progress = Progress {
        program,
        sums: Sums::new(),
        reader: Reader::start(1),
    };
    let mut room = [0u8; 65536];
    let mut bytes: u64 = 0;
    while bytes < MOST {
        let n = program.tried("read standard input", program.rt.stdin().read(&mut room))?;
        if n == 0 {
            return progress.end();
        }
        progress.take_bytes(&room[..n])?;
        bytes += n as u64;
    }
    Err(program.cannot_since("read standard input", "it is too long"))
}

const HELP: &[u8] = b"totals < reports > totals

Adds up what receive said of any number of blocks.

Standard input    receive's reports, one after the other: 17 lines each, number and lost mask, then each packet and its reason. None is
                  fine too. A report with another number than 0, 9 and 10 is no block, and counts nothing.
Standard output   a line for each packet position, 0 to 15: the position, then how often it was accepted, restored by the outer code,
                  undelivered (lost, in a block that ended in 9 or 10), and how often each reason 11 to 15 came. At the end a line
                  with the number of received blocks, which the first three totals of each position add up to.
                  All decimal. A refusal writes nothing there.
Standard error    a line that is none of a report: its number, from 1, and what is due there. A refusal, its number, the line where
                  the report begins, and what it means: 23 the lost mask and the reasons disagree, or a reason is unknown,
                  19 a total would pass 2^64 - 1. Trouble: what can't be read or written.

bin/totals ends with 0 when it is done, 1 when it refused, 2 for a wrong use or trouble.
";

// What is in the way was said: bin/ gives the exit status by it.
fn main(rt: HostRuntime) {
    let program = Program { rt, name: "totals" };
    let _ = match program.asked() {
        Request::Help => program.write(HELP),
        Request::Nothing => add_up(program),
        _ => Err(program.usage("totals < reports > totals; totals --help says more")),
    };
}
