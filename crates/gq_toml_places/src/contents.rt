// Where the lines of a string's contents stand in the text.
ghost use Rattle.std.specs.Prelude.{◌+◌, ◌<◌, ◌≤◌, length};

use std::alloc::{AllocError, Global};
use toml_parser::bytes::{byte_at, is_ws};
use toml_parser::{ParseError, quoted, starts_string};

/// A line of the contents of a string, and where it stands.
#[derive(Debug, Drop)]
pub struct ContentLine {
    /// The offset of its first byte that is no blank; of a string that isn't multi-line that of the key.
    pub at: usize,
    /// The line as the string has it, without its ending.
    pub text: String,
}

/// The contents of the string that begins at the start of a text. Nothing where no string stands there.
pub(crate) fn contents(alloc: Global, text: &str) -> Result<Option<String>, AllocError> {
    if !starts_string(text) {
        return Ok(None);
    }
    match quoted(alloc, text) {
        Ok((contents, _)) => Ok(Some(contents)),
        Err(ParseError::OutOfMemory) => Err(AllocError),
        Err(_) => Ok(None),
    }
}

/// A line of a text, numbered from 1, without what ends it. Nothing where the text has no such line.
pub(crate) fn nth_line(text: &str, number: usize) -> Option<&str> {
    let mut left = number;
    for line in text.split('\n') {
        if left <= 1 {
            return Some(line.strip_suffix('\r').unwrap_or(line));
        }
        left -= 1;
    }
    None
}

/// Whether a multi-line string begins at an offset.
pub(crate) fn is_multi_line(text: &[u8], at: usize) -> bool {
    match text.get(at..) {
        Some(rest) => rest.starts_with(b"\"\"\"") || rest.starts_with(b"'''"),
        None => false,
    }
}

/// Where a line of the contents of a multi-line string stands whose opening quotes begin at an offset: at its first byte that is no blank.
pub(crate) fn line_offset(text: &[u8], at: usize, number: usize) -> usize
    requires { at < length text.now }
    ensures { result ≤ length text.now }
{
    let basic = text[at] == b'"';
    let start = after_opening(text, at);
    let line = after_feeds(text, start, basic, number.saturating_sub(1));
    after_blanks(text, line, basic)
}

// After three quotes, and a line feed after them.
fn after_opening(text: &[u8], at: usize) -> usize
    requires { at < length text.now }
    ensures { result ≤ length text.now }
{
    let inside = if text.len() - at < 3 {
        text.len()
    } else {
        at + 3
    };
    if byte_at(text, inside) == b'\n' {
        inside + 1
    } else if byte_at(text, inside) == b'\r' && byte_at(text, inside + 1) == b'\n' {
        inside + 2
    } else {
        inside
    }
}

// After so many line feeds of the contents.
fn after_feeds(text: &[u8], start: usize, basic: bool, feeds: usize) -> usize
    requires { start ≤ length text.now }
    ensures { result ≤ length text.now }
{
    let mut at = start;
    let mut left = feeds;
    while left > 0 && at < text.len() {
        let piece = next_piece(text, at, basic);
        at = piece.end;
        if piece.is_line_feed {
            left -= 1;
        }
    }
    at
}

// After spaces and tabs, and in a basic string after lines that a backslash joins.
fn after_blanks(text: &[u8], start: usize, basic: bool) -> usize
    requires { start ≤ length text.now }
    ensures { result ≤ length text.now }
{
    let mut at = start;
    while at < text.len() {
        if is_ws(text[at]) {
            at += 1;
        } else if basic && joins_lines(text, at) {
            at = after_join(text, at + 1);
        } else {
            return at;
        }
    }
    at
}

// A byte or an escape of a string's contents, and whether it stands for a line feed.
#[derive(Clone, Copy)]
struct Piece {
    end: usize,
    is_line_feed: bool,
}

fn next_piece(text: &[u8], at: usize, basic: bool) -> Piece
    requires { at < length text.now }
    ensures further { at < result.end }
    ensures within { result.end ≤ length text.now }
{
    if basic && joins_lines(text, at) {
        Piece {
            end: after_join(text, at + 1),
            is_line_feed: false,
        }
    } else if basic && text[at] == b'\\' && at + 1 < text.len() {
        escape(text, at)
    } else {
        Piece {
            end: at + 1,
            is_line_feed: text[at] == b'\n',
        }
    }
}

// Whether a backslash stands here with nothing after it on its line but blanks, in a text that is TOML.
fn joins_lines(text: &[u8], at: usize) -> bool {
    byte_at(text, at) == b'\\' && matches!(byte_at(text, at + 1), b' ' | b'\t' | b'\r' | b'\n')
}

// After blanks and line feeds.
fn after_join(text: &[u8], start: usize) -> usize
    requires { start ≤ length text.now }
    ensures further { start ≤ result }
    ensures within { result ≤ length text.now }
{
    for at in start..text.len() {
        if !matches!(text[at], b' ' | b'\t' | b'\r' | b'\n') {
            return at;
        }
    }
    text.len()
}

// An escape that begins with the backslash at an offset.
fn escape(text: &[u8], at: usize) -> Piece
    requires { at + 1 < length text.now }
    ensures further { at < result.end }
    ensures within { result.end ≤ length text.now }
{
    let digits = match text[at + 1] {
        b'x' => 2,
        b'u' => 4,
        b'U' => 8,
        _ => 0,
    };
    let end = (at + 2 + digits).min(text.len());
    Piece {
        end,
        is_line_feed: text[at + 1] == b'n' || is_code_of_line_feed(&text[at + 2..end]),
    }
}

// Whether these hexadecimal digits are the number of a line feed, 10.
fn is_code_of_line_feed(digits: &[u8]) -> bool {
    match digits {
        [zeros @ .., b'a' | b'A'] => !zeros.is_empty() && zeros.iter().all(|digit| *digit == b'0'),
        _ => false,
    }
}
