// The profile, read and written by the same rules.
#![tactic(auto)]

ghost use Rattle.std.specs.Prelude.{◌≡◌, ◌≤◌, length};
ghost use Rattle.std.proofs.lemmas.List.Edits.{sets};
ghost use Rattle.rules.specs.Answers.{answer_of};
ghost use Rattle.rules.specs.Profile.{blank as blankOf, fault as fault_of, reading, reading_of, writing, writing_of, written};

mod faults;
mod fields;
mod header;
mod numbers;
mod reader;

use fields::FIELDS;
use reader::Reader;
use rules::{Profile, Refusal, Written};

// The largest size of a profile.
const LARGEST: usize = 252;

// What is at fault in a value, with its place as if it had been written out.
pub fn fault(p: Profile) -> Result<(), Refusal>
    ensures { answer_of result ≡ fault_of p }
{
    let mut at = 0;
    for field in FIELDS {
        field.fault(at, p)?;
        at += 3 + field.due(p);
    }
    faults::twin_fault(p)
}

// All numbers zero, D and the floor +0.0.
pub fn blank() -> Profile
    ensures { result ≡ blankOf }
{
    Profile {
        masks: [0u32; 8],
        level: 0.0,
        mode: 0,
        k: 0,
        seeds: [0u32; 48],
        floor: 0.0,
    }
}

// Reads any bytes, field by field.
pub fn read(bytes: &[u8]) -> Result<Profile, Refusal>
    ensures { reading_of result ≡ reading bytes.now }
{
    let mut p = blank();
    let mut reader = Reader::new(bytes);
    for field in FIELDS {
        let taken = reader.next(field, p)?;
        p = taken.profile;
        reader = reader.moved(taken.at);
    }
    header::ending(reader.src, reader.at)?;
    faults::twin_fault(p)?;
    Ok(p)
}

// All fields, from the front on; answers their size.
fn put_all(s: &mut [u8], p: Profile) -> usize
    requires { length (written p) ≤ length s.old }
    ensures { (result ≡ length (written p)) × (s.new ≡ sets s.old 0 (written p)) }
{
    let mut at = 0;
    for field in FIELDS {
        let due = field.due(p);
        let next = at + 3 + due;
        header::put(&mut s[at..at + 3], field.tag(), due);
        field.put_value(p, &mut s[at + 3..next]);
        at = next;
    }
    at
}

// Writes a value, or refuses it.
pub fn write(p: Profile) -> Result<Written, Refusal>
    ensures { writing_of result ≡ writing p }
{
    fault(p)?;
    let mut bytes = [0u8; LARGEST];
    let count = put_all(&mut bytes, p);
    Ok(Written { bytes, count })
}
