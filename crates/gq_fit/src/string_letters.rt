// The letters of a string as a TOML text has them, each with its place.
// No contract but that places are within the text: what is made of them is read again (`made`). Tests show them.
ghost use Rattle.std.specs.Prelude.{◌+◌, ◌<◌, ◌≤◌, length, IfSome};

use toml_parser::bytes::byte_at;

/// A byte that a string has, and from which offset up to which other it stands in the text. An escape for a character that is no ASCII has the byte 255.
#[derive(Clone, Copy)]
pub(crate) struct Letter {
    pub byte: u8,
    pub at: usize,
    pub end: usize,
}

/// Reads the letters of a string.
#[derive(Clone, Copy)]
pub(crate) struct Letters<'t> {
    text: &'t [u8],
    at: usize,
    quote: u8,
    is_long: bool,
}

impl<'t> Letters<'t> {
    /// Those of the string that begins at an offset of a text.
    pub fn new(text: &'t [u8], at: usize) -> Letters<'t> {
        let quote = byte_at(text, at);
        let is_long = byte_at(text, at.saturating_add(1)) == quote
            && byte_at(text, at.saturating_add(2)) == quote;
        let start = at.saturating_add(if is_long { 3 } else { 1 });
        let at = if is_long {
            after_feed(text, start)
        } else {
            start
        };
        Letters {
            text,
            at,
            quote,
            is_long,
        }
    }

    /// Whether the string ends here.
    fn is_at_end(&self) -> bool {
        let ends = byte_at(self.text, self.at) == self.quote;
        let long = byte_at(self.text, self.at.saturating_add(1)) == self.quote
            && byte_at(self.text, self.at.saturating_add(2)) == self.quote;
        self.at >= self.text.len() || (ends && (!self.is_long || long))
    }

    /// The next letter. `None` at the end of the string.
    pub fn next(&mut self) -> Option<Letter> {
        if self.quote == b'"' {
            self.at = after_joins(self.text, self.at);
        }
        if self.is_at_end() {
            return None;
        }
        let letter = if self.quote == b'"' && byte_at(self.text, self.at) == b'\\' {
            escaped(self.text, self.at)
        } else {
            Letter {
                byte: byte_at(self.text, self.at),
                at: self.at,
                end: self.at.saturating_add(1),
            }
        };
        self.at = letter.end;
        Some(letter)
    }
}

/// After a line feed that stands at an offset.
fn after_feed(text: &[u8], at: usize) -> usize {
    if byte_at(text, at) == b'\n' {
        at.saturating_add(1)
    } else if byte_at(text, at) == b'\r' && byte_at(text, at.saturating_add(1)) == b'\n' {
        at.saturating_add(2)
    } else {
        at
    }
}

/// Whether a backslash stands here with nothing after it on its line but blanks, in a string.
fn joins(text: &[u8], at: usize) -> bool {
    byte_at(text, at) == b'\\'
        && matches!(
            byte_at(text, at.saturating_add(1)),
            b' ' | b'\t' | b'\r' | b'\n'
        )
}

/// After blanks and line feeds.
fn after_blanks(text: &[u8], start: usize) -> usize {
    for at in start..text.len() {
        if !matches!(byte_at(text, at), b' ' | b'\t' | b'\r' | b'\n') {
            return at;
        }
    }
    text.len()
}

/// After all joins of lines that stand here.
fn after_joins(text: &[u8], start: usize) -> usize {
    let mut at = start;
    for _join in start..text.len() {
        if !joins(text, at) {
            return at;
        }
        at = after_blanks(text, at.saturating_add(1));
    }
    at
}

/// How many hexadecimal digits an escape of this letter has.
fn digits_of(letter: u8) -> usize {
    match letter {
        b'x' => 2,
        b'u' => 4,
        b'U' => 8,
        _ => 0,
    }
}

/// The byte that an escape of one letter stands for.
fn byte_of(letter: u8) -> u8 {
    match letter {
        b'n' => b'\n',
        b't' => b'\t',
        b'r' => b'\r',
        b'b' => 8,
        b'f' => 12,
        b'e' => 27,
        other => other,
    }
}

/// The number that hexadecimal digits spell; 255 where it is above 127.
fn spelled(digits: &[u8]) -> u8 {
    let mut number = 0_u64;
    for digit in digits {
        let value = match digit {
            b'0'..=b'9' => *digit - b'0',
            b'a'..=b'f' => *digit - b'a' + 10,
            b'A'..=b'F' => *digit - b'A' + 10,
            _ => 0,
        };
        number = number.saturating_mul(16).saturating_add(u64::from(value));
    }
    if number > 127 { 255 } else { number as u8 }
}

/// The letter of an escape that begins at an offset.
fn escaped(text: &[u8], at: usize) -> Letter {
    let letter = byte_at(text, at.saturating_add(1));
    let start = at.saturating_add(2);
    let end = start.saturating_add(digits_of(letter));
    let byte = match text.get(start..end) {
        Some(digits) if !digits.is_empty() => spelled(digits),
        _ => byte_of(letter),
    };
    Letter { byte, at, end }
}
