// Lines and columns of offsets, by a table of the places at which lines start.
ghost use Rattle.std.specs.Prelude.{◌≡◌, ◌+◌, ◌<◌, ◌≤◌, length, slice_index, IfOk};
ghost use Rattle.gq_toml_places.specs.Positions.{line_feeds, since_feed, StartLines};

use std::alloc::{AllocError, Global};
use std::marker::Model;

/// A line and a column, both from 1. The column counts bytes.
#[derive(Clone, Copy, Debug, PartialEq, Eq)]
pub struct Position {
    pub line: usize,
    pub column: usize,
}

/// A text with the places at which its lines start: the first at 0, each other one after a line feed.
#[derive(Drop)]
pub struct LineStarts<'t> {
    text: &'t str,
    starts: Vec<usize>,
}

impl<'t> Model for LineStarts<'t> {
    ghost use Rattle.std.specs.Prelude.{ℕ, List};
    ghost use Rattle.gq_toml_places.specs.Positions.{StartLines};

    ghost Value = { List ℕ };

    ghost view = { λ l. l.text.now };

    ghost invariant = { λ l. StartLines l.text.now l.starts.items };
}

impl<'t> LineStarts<'t> {
    /// The lines of a text. Takes 8 bytes of memory for each, at most twice that.
    pub fn read(alloc: Global, text: &'t str) -> Result<LineStarts<'t>, AllocError>
        ensures { IfOk result (λ lines. lines ≡ text.now) }
    {
        let starts = line_starts(alloc, text.as_bytes())?;
        Ok(LineStarts { text, starts })
    }

    /// The line and the column of an offset into the text: one more than the line feeds before it, and one more than the bytes since
    /// the last of these.
    pub fn position(&self, offset: usize) -> Position
        requires { offset ≤ length self.now }
        ensures line { result.line ≡ line_feeds self.now offset + 1 }
        ensures column { result.column ≡ since_feed self.now offset + 1 }
    {
        let index = line_index(self.starts.as_slice(), offset);
        Position {
            line: index + 1,
            column: offset - self.starts[index] + 1,
        }
    }

    /// The text of a line, numbered from 1, without the line feed at its end and a carriage return before that. Nothing where the text
    /// has no such line.
    pub fn line(&self, number: usize) -> &'t str {
        if number == 0 || number > self.starts.len() {
            return "";
        }
        let start = self.starts[number - 1];
        let end = match self.starts.get(number) {
            Some(next) => *next,
            None => self.text.len(),
        };
        match self.text.get(start..end) {
            Some(line) => without_end(line),
            None => "",
        }
    }
}

// A line without what ends it.
fn without_end(line: &str) -> &str {
    match line.strip_suffix('\n') {
        Some(prefix) => prefix.strip_suffix('\r').unwrap_or(prefix),
        None => line,
    }
}

// Where each line starts.
fn line_starts(alloc: Global, text: &[u8]) -> Result<Vec<usize>, AllocError>
    ensures { IfOk result (λ starts. StartLines text.now starts.items) }
{
    let mut starts = Vec::new(alloc);
    starts.push(0)?;
    for (at, byte) in text.iter().enumerate() {
        if *byte == b'\n' {
            starts.push(at + 1)?;
        }
    }
    Ok(starts)
}

// The last line that starts at this offset or before it.
fn line_index(starts: &[usize], offset: usize) -> usize
    requires some { 0 < length starts.now }
    requires first { slice_index starts.now 0 ≡ 0 }
    ensures within { result < length starts.now }
    ensures before { slice_index starts.now result ≤ offset }
    ensures after { result + 1 < length starts.now → offset < slice_index starts.now (result + 1) }
{
    let mut low = 0;
    let mut high = starts.len();
    while high - low > 1 {
        let middle = low + (high - low) / 2;
        if starts[middle] <= offset {
            low = middle;
        } else {
            high = middle;
        }
    }
    low
}
