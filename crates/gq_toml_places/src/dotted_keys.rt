// The parts of a key, one after the other.
ghost use Rattle.std.specs.Prelude.{length, ◌<◌, ◌≤◌};
ghost use Rattle.toml_parser.specs.Reading.{Shortens};

use std::alloc::Global;
use toml_parser::bytes::is_bare;
use toml_parser::text::{first, skip};
use toml_parser::{ErrorKind, ParseError, quoted, starts_string};

/// One part of a key, and the text after it.
pub(crate) fn part(alloc: Global, s: &str) -> Result<(String, &str), ParseError>
    ensures { Shortens s.now result }
{
    if starts_string(s) {
        quoted(alloc, s)
    } else if is_bare(first(s)) {
        bare(alloc, s)
    } else {
        Err(ParseError::at(ErrorKind::Key, s))
    }
}

// A part without quotes.
fn bare(alloc: Global, s: &str) -> Result<(String, &str), ParseError>
    ensures { Shortens s.now result }
{
    let length = bare_length(s.as_bytes());
    match (s.get(..length), s.get(length..)) {
        (Some(name), Some(rest)) if length > 0 => Ok((String::from_str(alloc, name)?, rest)),
        _ => Err(ParseError::at(ErrorKind::Key, s)),
    }
}

// How many bytes at the start can stand in a part without quotes.
fn bare_length(bytes: &[u8]) -> usize
    ensures { result ≤ length bytes.now }
{
    bytes.iter().take_while(|byte| is_bare(**byte)).count()
}

/// Where the part of a key that begins at an offset ends.
pub(crate) fn part_end(bytes: &[u8], at: usize) -> usize
    ensures { result ≤ length bytes.now }
{
    if at >= bytes.len() {
        return bytes.len();
    }
    match bytes[at] {
        b'"' => at + 1 + quoted_length(&bytes[at + 1..], b'"'),
        b'\'' => at + 1 + quoted_length(&bytes[at + 1..], b'\''),
        _ => at + bare_length(&bytes[at..]),
    }
}

// How many bytes stand before and with the closing quote. In a basic string a backslash takes the byte after it along.
fn quoted_length(bytes: &[u8], delimiter: u8) -> usize
    ensures { result ≤ length bytes.now }
{
    let mut escaped = false;
    for (at, byte) in bytes.iter().enumerate() {
        if escaped {
            escaped = false;
        } else if *byte == delimiter {
            return at + 1;
        } else if *byte == b'\\' && delimiter == b'"' {
            escaped = true;
        }
    }
    bytes.len()
}
