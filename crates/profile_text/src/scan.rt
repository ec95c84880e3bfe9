// The lines of a text, and the words of a line.
ghost use Rattle.std.specs.Prelude.{◌-◌, ◌<◌, ◌≤◌, length};
ghost use Rattle.std.specs.Iterator.{at_most};

fn is_blank(b: u8) -> bool {
    b == b' ' || b == b'\t'
}

// Editors end a line with a newline, a carriage return, or a carriage return and a newline.
fn is_end(b: u8) -> bool {
    b == b'\n' || b == b'\r'
}

// The lines that are left of a text.
#[derive(Drop)]
pub struct Lines<'a> {
    rest: &'a [u8],
}

impl<'a> Lines<'a> {
    // A byte order mark, which some editors put before a text, is in no line.
    pub fn of(text: &'a [u8]) -> Lines<'a> {
        Lines {
            rest: text.strip_prefix(b"\xEF\xBB\xBF").unwrap_or(text),
        }
    }
}

impl<'a> Iterator for Lines<'a> {
    type Item = &'a [u8];

    ghost remaining = { λ l. at_most (length l.rest.now) };

    fn next(&mut self) -> Option<&'a [u8]> {
        if self.rest.is_empty() {
            return None;
        }
        let (line, after) = self.rest.split_at(line_len(self.rest));
        self.rest = after_end(after);
        Some(line)
    }
}

// Where the first line ends.
fn line_len(text: &[u8]) -> usize
    ensures { result ≤ length text.now }
{
    text.iter().position(|b| is_end(*b)).unwrap_or(text.len())
}

// What stands after a line's end: a carriage return and a newline together are one.
fn after_end(s: &[u8]) -> &[u8]
    ensures { length result.now ≤ length s.now - 1 }
{
    match s {
        [b'\r', b'\n', rest @ ..] | [_, rest @ ..] => rest,
        [] => s,
    }
}

// The words that are left of a line.
#[derive(Drop)]
pub struct Words<'a> {
    rest: &'a [u8],
}

impl<'a> Words<'a> {
    // Those before the line's comment.
    pub fn of(line: &'a [u8]) -> Words<'a> {
        Words {
            rest: line.split(|b| *b == b'#').next().unwrap_or(line),
        }
    }
}

impl<'a> Iterator for Words<'a> {
    type Item = &'a [u8];

    ghost remaining = { λ w. at_most (length w.rest.now) };

    fn next(&mut self) -> Option<&'a [u8]> {
        let start = self.rest.iter().position(|b| !is_blank(*b))?;
        let text = &self.rest[start..];
        let (word, after) = text.split_at(word_len(text));
        self.rest = after;
        Some(word)
    }
}

// Where the word ends that a text begins with.
fn word_len(text: &[u8]) -> usize
    requires { 0 < length text.now }
    ensures { (0 < result) × (result ≤ length text.now) }
{
    match text[1..].iter().position(|b| is_blank(*b)) {
        Some(n) => n + 1,
        None => text.len(),
    }
}
