// The data under the name that the argument gives. It goes to a new file beside it, which takes the name once every byte is written, so that
// the name stands for what it did before or for the whole data. What is there already and no regular file, as a device or a pipe, has no
// place for a new name, and the data is written into it. A link is refused: the new file would take the place of the link.
use manners::words::{Foreign, Text};
use manners::{ENAMETOOLONG, PATH_MAX, Program, Said, named};
use std::fmt::Write as _;
use std::fs::{File, OpenOptions};
use std::io::{Error, ErrorKind, Seek, SeekFrom, Write};
use std::random::RandomSource;
use std::{fmt, fs, io};

// Keeps the data under the name, or says why it can't.
pub fn keep(program: Program<'_>, path: &[u8], data: &[u8]) -> Result<(), Said> {
    let rt = program.rt;
    let name = tried(program, path, named(path))?;
    if let Some(mut file) = tried(program, path, standing(rt, name))? {
        return tried(program, path, file.write_all(data));
    }
    if is_link(rt, name) {
        let why = "it is a link, name the file that it leads to";
        return Err(program.cannot_since(format_args!("write {}", Foreign(path)), why));
    }
    replace(program, path, name, data)
}

// What a step gave; why the path can't be written is said at once.
fn tried<T>(program: Program<'_>, path: &[u8], outcome: io::Result<T>) -> Result<T, Said> {
    program.tried(format_args!("write {}", Foreign(path)), outcome)
}

// What stands under the name and is no regular file, open for writing; none where a new file can take the place. This open changes nothing.
fn standing(rt: HostRuntime, name: &str) -> io::Result<Option<File>> {
    match OpenOptions::new().append(true).open(&rt, name) {
        Ok(mut file) => {
            if is_regular(&mut file).unwrap_or(false) {
                Ok(None)
            } else {
                Ok(Some(file))
            }
        }
        Err(e) if e.kind() == ErrorKind::NotFound => Ok(None),
        Err(e) => Err(e),
    }
}

// Whether the file is a regular one: those alone have places after their end.
fn is_regular(file: &mut File) -> io::Result<bool> {
    let end = file.seek(SeekFrom::End(0))?;
    let past = file.seek(SeekFrom::End(1))?;
    Ok(end < past)
}

fn is_link(rt: HostRuntime, name: &str) -> bool {
    match fs::symlink_metadata(&rt, name) {
        Ok(found) => found.is_symlink(),
        Err(_) => false,
    }
}

// The name of a new file in the folder of another, with a number by chance, so that no other file has it.
#[derive(Clone, Copy)]
struct Beside<'a> {
    name: &'a str,
    chance: u32,
}

impl fmt::Display for Beside<'_> {
    fn fmt<W: fmt::Write>(&self, f: &mut fmt::Formatter<W>) -> fmt::Result {
        if let Some((folder, _)) = self.name.rsplit_once('/') {
            write!(f, "{folder}/")?;
        }
        write!(f, "receive-{}.new", self.chance)
    }
}

// A number by chance; where the system has none, any other will do, since no file is made under a name that is taken.
fn chance(rt: HostRuntime) -> u32 {
    let mut four = [0u8; 4];
    let _ = rt.fill_bytes(&mut four);
    u32::from_be_bytes(four)
}

// Writes the data into a new file, which takes the name when it is whole. Where it can't be, that is said, and then it is removed; where that can't be either,
// it stays.
fn replace(program: Program<'_>, path: &[u8], name: &str, data: &[u8]) -> Result<(), Said> {
    let rt = program.rt;
    let mut beside = Text::<PATH_MAX>::new();
    let chance = chance(rt);
    let room = write!(beside, "{}", Beside { name, chance });
    tried(
        program,
        path,
        room.map_err(|_| Error::from_raw_os_error(ENAMETOOLONG)),
    )?;
    let new = beside.as_str();
    let opened = OpenOptions::new()
        .write(true)
        .create_new(true)
        .open(&rt, new);
    let file = tried(program, path, opened)?;
    tried(program, path, put_in_place(rt, file, new, name, data)).inspect_err(|_| {
        let _ = fs::remove_file(&rt, new);
    })
}

// Writes the data into the new file and closes it, once all of it has reached the disk, and gives it the name.
fn put_in_place(rt: HostRuntime, file: File, new: &str, name: &str, data: &[u8]) -> io::Result<()> {
    fill(file, data)?;
    fs::rename(&rt, new, name)
}

fn fill(mut file: File, data: &[u8]) -> io::Result<()> {
    file.write_all(data)?;
    file.sync_all()
}
