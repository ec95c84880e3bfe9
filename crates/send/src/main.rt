// Sends one block. Standard input: two bytes of profile length, high byte first, the profile, then the data, 122 bytes a packet. Standard
// output: for each symbol its 4096 first parts and its 4096 second parts, four bytes each, high byte first. A refusal writes nothing there,
// and its number to standard error, with what it means: 1 also where the input ends before the profile does.
#![tactic(auto)]

use manners::{Program, Request, Said, read_full};
use rules::{Profile, Refusal};

// One byte more than the longest data has, to find what is too much.
const ROOM: usize = 1709;

// Bytes of one symbol's first parts, or second parts.
const PARTS: usize = 16_384;

// Writes one symbol's first or second parts.
fn write_parts(program: Program<'_>, list: &[f32]) -> Result<(), Said> {
    let mut bytes = [0u8; PARTS];
    let (fours, _) = bytes.as_chunks_mut::<4>();
    for (four, part) in fours.iter_mut().zip(list) {
        *four = parts::bytes_of_part(*part);
    }
    program.write(&bytes)
}

// Says a refusal, for data of a wrong length with the length.
fn refuse(program: Program<'_>, refusal: Refusal, came: usize, k: u8) -> Said {
    let due = 122 * u64::from(k);
    match refusal {
        Refusal::WrongData if came < ROOM => program.refuse_length(refusal, came as u64, due),
        Refusal::WrongData => program.refuse_surplus(refusal, ROOM as u64 - 1, due),
        _ => program.refuse(refusal),
    }
}

// Sends one symbol.
fn send_one(program: Program<'_>, p: Profile, data: &[u8], y: usize) -> Result<(), Said> {
    let mut firsts = [0f32; 4096];
    let mut seconds = [0f32; 4096];
    sending::send_symbol(p, data, y, &mut firsts, &mut seconds).map_err(|refusal| refuse(
        program,
        refusal,
        data.len(),
        p.k,
    ))?;
    write_parts(program, &firsts)?;
    write_parts(program, &seconds)
}

// Reads the data, and sends the symbols in their order.
fn send_input(program: Program<'_>, p: Profile) -> Result<(), Said> {
    let mut data = [0u8; ROOM];
    let came = read_full(&mut program.rt.stdin(), &mut data);
    if came < ROOM {
        program.input_ended()?;
    }
    for y in 0..modes::symbol_count(p.mode) {
        send_one(program, p, &data[..came], y)?;
    }
    Ok(())
}

// Reads a part of the profile's bytes: input that ends inside it is refused, unless it did not end.
fn read_whole(program: Program<'_>, room: &mut [u8]) -> Result<(), Said> {
    if read_full(&mut program.rt.stdin(), room) == room.len() {
        return Ok(());
    }
    program.input_ended()?;
    Err(program.refuse_short_input(Refusal::EndsInField, "the profile does"))
}

// Reads the profile, and sends by it.
fn send(program: Program<'_>) -> Result<(), Said> {
    let mut two = [0u8; 2];
    read_whole(program, &mut two)?;
    let mut room = [0u8; 65536];
    let bytes = &mut room[..usize::from(u16::from_be_bytes(two))];
    read_whole(program, bytes)?;
    let p = profile::read(bytes).map_err(|refusal| program.refuse_profile(refusal, bytes))?;
    send_input(program, p)
}

const HELP: &[u8] = b"send < input > cells

Sends one block as MediaFLO cells.

Standard input    two bytes of profile length, the profile, the data (122 x K bytes); all numbers high byte first.
                  profile_text makes a profile.
Standard output   for each symbol (7, 5, 4, 3 and 2 in modes 0 to 4) its 4096 first parts, then its 4096 second parts, each an f32 of four
                  bytes, high byte first. A refusal writes nothing there.
Standard error    a refusal: its number, and what it means, with the byte of the profile where a value is outside its range, or the slot
                  that has seed and mask of an earlier one in its symbol.
                  Trouble: what can't be read or written.

bin/send ends with 0 when it is done, 1 when it refused, 2 for a wrong use or trouble.
";

// What is in the way was said: bin/ gives the exit status by it.
fn main(rt: HostRuntime) {
    let program = Program { rt, name: "send" };
    let _ = match program.asked() {
        Request::Nothing => send(program),
        Request::Help => program.write(HELP),
        _ => Err(program.usage("send < input > cells; send --help says more")),
    };
}
