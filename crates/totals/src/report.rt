// Reads receive's reports byte by byte. A report has 34 numbers, two a line: the number and the lost mask, then each packet and its reason. They
// are decimal, with no leading zero and no sign; a blank ends the first one of a line, a newline the second.
ghost use Rattle.std.specs.Prelude.{◌+◌, ◌<◌, ◌≤◌, ◌≡◌};

use rules::Receipt;
use std::fmt;

// How many numbers a report has.
const NUMBERS: usize = 34;

// A report, and the line where it begins.
#[derive(Clone, Copy)]
pub struct Report {
    pub line: u64,
    pub receipt: Receipt,
}

// What a number of a report is.
#[derive(Clone, Copy, Debug, PartialEq, Eq)]
enum Part {
    Number,
    Lost,
    Packet,
    Reason,
}

// What was read: the line at hand, from 1; which of the report's numbers is at hand, and what its digits so far say, where there are any; the report so
// far, in which each digit counts at once.
#[derive(Clone, Copy)]
pub struct Reader {
    pub line: u64,
    at: usize,
    value: Option<u32>,
    report: Report,
    ghost inside: { at < 34 },
}

// Why a text is no reports, by what was read: the line at hand is none of a report's, or the input ends in it.
#[derive(Clone, Copy)]
pub enum Fault {
    Wrong(Reader),
    Cut(Reader),
}

impl fmt::Display for Fault {
    fn fmt<W: fmt::Write>(&self, f: &mut fmt::Formatter<W>) -> fmt::Result {
        match self {
            Fault::Wrong(r) => {
                write!(f, "line {}: ", r.line)?;
                if r.at < 2 {
                    return f.write_str("a number and a lost mask are due");
                }
                write!(
                    f,
                    "packet {} and its reason are due, in the report that begins at line {}",
                    r.packet(),
                    r.report.line
                )
            }
            Fault::Cut(r) => write!(
                f,
                "line {}: the input ends inside the report that begins at line {}",
                r.line, r.report.line
            ),
        }
    }
}

// What a number's digits say with one more, where they have no leading zero and it has at most 32 bits.
fn longer(value: Option<u32>, digit: u8) -> Option<u32> {
    match value {
        None => Some(u32::from(digit)),
        Some(0) => None,
        Some(value) => value.checked_mul(10)?.checked_add(u32::from(digit)),
    }
}

impl Reader {
    // A report is due at this line.
    pub fn start(line: u64) -> Reader
        ensures { result.line ≡ line }
    {
        Reader {
            line,
            at: 0,
            value: None,
            report: Report {
                line,
                receipt: Receipt {
                    number: 0,
                    place: 0,
                    lost: 0,
                    reasons: [0u8; 16],
                },
            },
        }
    }

    // That no report is begun.
    pub fn ended(&self) -> Result<(), Fault> {
        if self.at == 0 && self.value.is_none() {
            Ok(())
        } else {
            Err(Fault::Cut(*self))
        }
    }

    // What the number at hand is.
    fn part(&self) -> Part {
        match self.at {
            0 => Part::Number,
            1 => Part::Lost,
            at if at % 2 == 0 => Part::Packet,
            _ => Part::Reason,
        }
    }

    // The packet whose line it stands in; 0 in the first line.
    fn packet(&self) -> usize
        ensures { result < 16 }
    {
        (self.at / 2).saturating_sub(1)
    }

    // Whether a packet's number may begin so: it is the one due, or its first digit.
    fn begins_packet(&self, value: u32) -> bool {
        let due = self.packet() as u32;
        value == due || value == 1 && 10 <= due
    }

    // Puts the number at hand into the report, as far as its digits say it; none where it can't be so.
    fn put(&mut self, value: u32) -> Option<()>
        ensures line { self.new.line ≡ self.old.line }
        ensures at { self.new.at ≡ self.old.at }
    {
        let p = self.packet();
        match self.part() {
            Part::Number => self.report.receipt.number = value,
            Part::Lost => self.report.receipt.lost = u16::try_from(value).ok()?,
            Part::Packet => self.begins_packet(value).then_some(())?,
            Part::Reason => self.report.receipt.reasons[p] = u8::try_from(value).ok()?,
        }
        self.value = Some(value);
        Some(())
    }

    // Whether the number at hand may end: it has digits and, where it is a packet's, is the one due.
    fn is_ready(&self) -> bool {
        match (self.part(), self.value) {
            (_, None) => false,
            (Part::Packet, Some(value)) => value == self.packet() as u32,
            _ => true,
        }
    }

    // Goes to the next number of the report; where it was the last, answers the report, and the next one is due.
    fn go_on(&mut self) -> Option<Report>
        ensures { self.new.line ≡ self.old.line }
    {
        if self.at + 1 < NUMBERS {
            self.at += 1;
            self.value = None;
            return None;
        }
        let report = self.report;
        *self = Reader::start(self.line);
        Some(report)
    }

    // Takes a byte: the report goes on, or is whole.
    pub fn next(&mut self, b: u8) -> Result<Option<Report>, Fault>
        requires { self.old.line < 9223372036854775808 }
        ensures { self.new.line ≤ self.old.line + 1 }
    {
        let wrong = Fault::Wrong(*self);
        match b {
            b'0'..=b'9' => {
                let value = longer(self.value, b - b'0').ok_or(wrong)?;
                self.put(value).ok_or(wrong)?;
                Ok(None)
            }
            b' ' if self.at % 2 == 0 && self.is_ready() => Ok(self.go_on()),
            b'\n' if self.at % 2 == 1 && self.is_ready() => {
                self.line += 1;
                Ok(self.go_on())
            }
            _ => Err(wrong),
        }
    }
}
