// What came from outside the programs, as they show it.
ghost use Rattle.std.specs.Prelude.{◌≡◌, ◌+◌, ◌≤◌, length, take};

use std::fmt;
use std::fmt::Write;
use std::io::Error;

// Bytes as every screen shows them, so that they neither end a line nor steer a screen.
#[derive(Clone, Copy)]
pub struct Foreign<'a>(pub &'a [u8]);

impl fmt::Display for Foreign<'_> {
    fn fmt<W: fmt::Write>(&self, f: &mut fmt::Formatter<W>) -> fmt::Result {
        for b in self.0 {
            f.write_char(plain(*b))?;
        }
        Ok(())
    }
}

// A byte that every screen shows as it is, and `?` for any other.
fn plain(b: u8) -> char {
    match b {
        b' '..=b'~' => char::from(b),
        _ => '?',
    }
}

// The system's words for an error, without its number; of an error that the system has no words for, what std says. What finds no room is cut.
#[derive(Clone, Copy)]
pub struct SystemWords<'a>(pub &'a Error);

impl fmt::Display for SystemWords<'_> {
    fn fmt<W: fmt::Write>(&self, f: &mut fmt::Formatter<W>) -> fmt::Result {
        let mut said = Text::<ROOM>::new();
        let _ = write!(said, "{}", self.0);
        let all = said.as_str();
        match all.rsplit_once(" (os error ") {
            Some((words, _)) if self.0.raw_os_error().is_some() => f.write_str(words),
            _ => f.write_str(all),
        }
    }
}

// Room for what std says of an error: words of at most 256 bytes, and the error's number.
const ROOM: usize = 288;

// Text in fixed memory: what finds no room in it is cut, and an error.
#[derive(Drop)]
pub struct Text<const N: usize> {
    bytes: [u8; N],
    len: usize,
    ghost fits: { len ≤ N },
}

impl<const N: usize> Text<N> {
    pub fn new() -> Text<N> {
        Text {
            bytes: [0; N],
            len: 0,
        }
    }

    // Takes all of it away.
    pub fn clear(&mut self)
        ensures { self.new.len ≡ 0 }
    {
        self.len = 0;
    }

    // How many bytes more find room.
    pub fn room(&self) -> usize
        ensures { result + self.now.len ≡ N }
    {
        N - self.len
    }

    pub fn as_bytes(&self) -> &[u8]
        ensures { result.now ≡ take self.now.len self.now.bytes }
    {
        &self.bytes[..self.len]
    }

    // Without a character at its end that was cut.
    pub fn as_str(&self) -> &str {
        let mut runs = self.bytes[..self.len].utf8_chunks();
        runs.next().map_or("", |run| run.valid())
    }

    fn put(&mut self, bytes: &[u8])
        requires { self.old.len + length bytes.now ≤ N }
    {
        let end = self.len + bytes.len();
        let room = &mut self.bytes[..];
        room[self.len..end].copy_from_slice(bytes);
        self.len = end;
    }
}

impl<const N: usize> fmt::Write for Text<N> {
    fn write_str(&mut self, s: &str) -> fmt::Result {
        if N - self.len < s.len() {
            self.put(&s.as_bytes()[..N - self.len]);
            return Err(fmt::Error);
        }
        self.put(s.as_bytes());
        Ok(())
    }
}
