// One of the two files of cells: opened, read to its end for its length, then read again symbol by symbol. What can't be done is said here.
ghost use Rattle.std.specs.Prelude.{◌<◌, ◌≤◌, length, IfOk};

use manners::words::Foreign;
use manners::{Program, Said, named, read_full};
use std::fs::File;
use std::io;
use std::io::{Read, Seek, SeekFrom};

// Cells of one symbol, and bytes of its first parts, or second parts.
pub const CELLS: usize = 4096;

const PARTS: usize = 16_384;

// A file of so many bytes is too long: its symbols have numbers of more than 32 bits.
const MOST: u64 = 140_737_488_355_328;

// The patterns of one symbol's parts.
#[derive(Drop)]
pub struct Symbol {
    pub firsts: [u32; CELLS],
    pub seconds: [u32; CELLS],
}

impl Symbol {
    // All zero, until it is read.
    pub fn new() -> Symbol {
        Symbol {
            firsts: [0; CELLS],
            seconds: [0; CELLS],
        }
    }
}

// A file that can be read twice, and the path that it was named by.
#[derive(Drop)]
pub struct CellFile<'a> {
    program: Program<'a>,
    path: &'a [u8],
    file: File,
}

impl<'a> CellFile<'a> {
    // Opens it.
    pub fn open(program: Program<'a>, path: &'a [u8]) -> Result<CellFile<'a>, Said> {
        let opened = open_read(program.rt, path);
        let file = program.tried(format_args!("read {}", Foreign(path)), opened)?;
        let mut cells = CellFile {
            program,
            path,
            file,
        };
        cells.rewind()?;
        Ok(cells)
    }
}

impl CellFile<'_> {
    // Says why it can't be read.
    fn cannot_since(&self, why: &str) -> Said {
        self.program
            .cannot_since(format_args!("read {}", Foreign(self.path)), why)
    }

    // Says that it isn't what it was when its length was taken.
    fn changed(&self) -> Said {
        self.cannot_since("it changed meanwhile")
    }

    // Goes to its start: a pipe has none.
    pub fn rewind(&mut self) -> Result<(), Said> {
        match self.file.seek(SeekFrom::Start(0)) {
            Ok(_) => Ok(()),
            Err(_) => Err(self.cannot_since("it can't be read twice, put it into a file first")),
        }
    }

    // Reads some bytes.
    fn read(&mut self, room: &mut [u8]) -> Result<usize, Said>
        ensures { IfOk result (λ n. n ≤ length room.new) }
    {
        let came = self.file.read(room);
        self.program
            .tried(format_args!("read {}", Foreign(self.path)), came)
    }

    // Reads it to its end, and answers how many bytes it has. Its room is not wanted any more where symbols are compared, and so has a frame of its own.
    #[inline(never)]
    pub fn length(&mut self) -> Result<u64, Said>
        ensures { IfOk result (λ n. n < 140737488355328) }
    {
        let mut room = [0u8; 65536];
        let mut bytes: u64 = 0;
        while bytes < MOST {
            match self.read(&mut room)? {
                0 => return Ok(bytes),
                n => bytes += n as u64,
            }
        }
        Err(self.cannot_since("it is too long"))
    }

    // That it has come to its end.
    pub fn ended(&mut self) -> Result<(), Said> {
        match self.read(&mut [0u8; 1])? {
            0 => Ok(()),
            _ => Err(self.changed()),
        }
    }

    // Reads one symbol's first or second parts, four bytes each. They go into a lent list: manners' `numbers_at` hands one out, which would be a copy more.
    fn read_parts(&mut self, list: &mut [u32; CELLS]) -> Result<(), Said> {
        let mut bytes = [0u8; PARTS];
        if read_full(&mut self.file, &mut bytes) < PARTS {
            self.ended()?;
            return Err(self.changed());
        }
        let (fours, _) = bytes.as_chunks::<4>();
        for (x, four) in list.iter_mut().zip(fours) {
            *x = u32::from_be_bytes(*four);
        }
        Ok(())
    }

    // Reads one symbol.
    pub fn read_symbol(&mut self, symbol: &mut Symbol) -> Result<(), Said> {
        self.read_parts(&mut symbol.firsts)?;
        self.read_parts(&mut symbol.seconds)
    }
}

// Opens a file to read it.
fn open_read(rt: HostRuntime, path: &[u8]) -> io::Result<File> {
    File::open(&rt, named(path)?)
}
