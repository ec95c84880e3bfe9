// Profiles as text, for a test lab's staff:
//
//     profile_text make < text > profile      a profile's bytes from a text
//     profile_text show < profile > text      a text from which `make` makes the same bytes
//
// A text has one field a line, in any order; `#` starts a comment, blank lines are allowed, numbers are decimal or 0x and hexadecimal:
//
//     masks 1 2 3 4 5 6 7 8       eight, from 1 to 1048575
//     level 1.5                   D: at most 7 digits, leading zeros aside, and at most 10 after the point; or the f32's pattern, 0x3FC00000
//     mode 0                      0 and 1: QPSK with rates 1/3 and 1/2; 2, 3 and 4: 16QAM with rates 1/3, 1/2 and 2/3, and 3 x D finite
//     k 14                        8, 12 or 14
//     seeds 1 2 3                 48, 32, 24, 16 and 12 in modes 0 to 4, from 1 to 1048575; more lines with seeds go on
//     floor 0.05                  0, or a decimal number or pattern as for D; floor + floor is at most D
//
// Block slot t is in symbol t div 7; its seed is number t from 0, its mask number 1 + t mod 7. No two slots of one symbol may have both alike.
// Lines end as any editor ends them, and a byte order mark may stand before the text. A bad text, its first mistake, or a refused profile
// gives one line on standard error and nothing on standard output. The bytes always come from profile::write, and what a profile says from
// profile::read: the ranges are tested here for the messages' sake, twins only there.
#![tactic(auto)]

mod draft;
mod fields;
mod number;
mod say;
mod scan;
mod show;

use manners::twin::Twins;
use manners::{Program, Request, Said};
use rules::Refusal;
use say::{Mistake, Refused};

// What the tool is asked for.
#[derive(Clone, Copy)]
enum Command {
    Make,
    Show,
}

impl Command {
    fn from_word(word: &[u8]) -> Option<Command> {
        match word {
            b"make" => Some(Command::Make),
            b"show" => Some(Command::Show),
            _ => None,
        }
    }

    // The one word after the program's name, where it is a command.
    fn asked(program: Program<'_>) -> Option<Command> {
        let mut word = [0u8; 8];
        let n = program.word(1, &mut word).ok()?;
        Command::from_word(&word[..n])
    }
}

// The bytes of the profile that a text gives; twins are found last of all.
fn make_profile(program: Program<'_>, text: &[u8]) -> Result<(), Said> {
    let p = draft::read(text).map_err(|refused| refuse_text(program, refused))?;
    match profile::write(p) {
        Ok(written) => program.write(written.as_bytes()),
        Err(Refusal::Twins(slot)) => {
            let masks = p.masks;
            let seeds = p.seeds;
            let twins = Twins { masks, seeds, slot };
            let refused = Refused::in_text(Mistake::Repeated(twins));
            Err(refuse_text(program, refused))
        }
        Err(refusal) => Err(program.refuse(refusal)),
    }
}

// A text's first mistake.
fn refuse_text(program: Program<'_>, refused: Refused<'_>) -> Said {
    program.say(format_args!("{}: {refused}", program.name))
}

// The profile's text.
fn show_profile(program: Program<'_>, bytes: &[u8]) -> Result<(), Said> {
    let p = profile::read(bytes).map_err(|refusal| program.refuse_profile(refusal, bytes))?;
    program.print(show::Text(p))
}

// Reads the input, and one byte more than the longest text to see that it is longer; a longer profile is refused for its first bytes.
fn obey(program: Program<'_>, command: Command) -> Result<(), Said> {
    let mut input = [0u8; draft::MOST + 1];
    let n = manners::read_full(&mut program.rt.stdin(), &mut input);
    if n <= draft::MOST {
        program.input_ended()?;
    }
    match command {
        Command::Make => make_profile(program, &input[..n]),
        Command::Show => show_profile(program, &input[..n]),
    }
}

fn help(program: Program<'_>) -> Result<(), Said> {
    program.write(
        b"profile_text make < text > profile      a profile's bytes from a text
profile_text show < profile > text      a text from which make makes the same bytes

A text has one field a line, in any order; # starts a comment, blank lines are allowed, numbers are decimal or 0x and hexadecimal:

    masks 1 2 3 4 5 6 7 8       eight, from 1 to 1048575
    level 1.5                   D: at most 7 digits, leading zeros aside, and at most 10 after the point; or the f32's pattern, 0x3FC00000
    mode 0                      0 and 1: QPSK with rates 1/3 and 1/2; 2, 3 and 4: 16QAM with rates 1/3, 1/2 and 2/3, and 3 x D finite
    k 14                        8, 12 or 14
    seeds 1 2 3                 48, 32, 24, 16 and 12 in modes 0 to 4, from 1 to 1048575; more lines with seeds go on
    floor 0.05                  0, or a decimal number or pattern as for D; floor + floor is at most D

Block slot t is in symbol t div 7; its seed is number t from 0, its mask number 1 + t mod 7. No two slots of one symbol may have both alike.

Standard error    a refused text: its first mistake. A refused profile: its number, and what it means, with the byte where a value is
                  outside its range, or the slot that has seed and mask of an earlier one in its symbol.
                  Trouble: what can't be read or written. Nothing is then written to standard output.

bin/profile_text ends with 0 when it is done, 1 when it refused, 2 for a wrong use or trouble.
",
    )
}

fn usage(program: Program<'_>) -> Said {
    program.usage(
        "profile_text make < text > profile, or profile_text show < profile > text; profile_text --help says more",
    )
}

fn main(rt: HostRuntime) {
    let program = Program {
        rt,
        name: "profile_text",
    };
    let _ = match (program.asked(), Command::asked(program)) {
        (Request::Help, _) => help(program),
        (Request::Word, Some(command)) => obey(program, command),
        _ => Err(usage(program)),
    };
}
