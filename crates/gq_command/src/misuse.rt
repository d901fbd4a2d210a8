// What is said of a command line that names no command. No contract: its words are the parser's; cases of the program show them.
use crate::entries::usage_of;
use clap::Error;
use std::alloc::{AllocError, Global};

// What the lines below the first one begin with.
const INDENT: &str = "  ";

// What the parser says of a command that is like the first word, up to its name.
const SIMILAR: &str = "  tip: a similar subcommand exists: '";

/// The lines that say what is wrong with these words, each indented by two blanks. They are those of the parser's error up to its usage, without empty ones.
/// Then comes the usage of the command that the first word names, or of the one that is like it.
pub(crate) fn misuse(alloc: Global, error: &Error, words: &[&str]) -> Result<String, AllocError> {
    let said = format!(in alloc; "{error}")?;
    let mut text = String::new(alloc);
    push_error(&mut text, said.as_str())?;
    push_usage(&mut text, said.as_str(), words)?;
    Ok(text)
}

// The lines of an error of the parser, up to its usage.
fn push_error(text: &mut String, said: &str) -> Result<(), AllocError> {
    for line in said.lines() {
        if is_after(line) {
            return Ok(());
        }
        let line = line.strip_prefix("error: ").unwrap_or(line);
        push_line(text, "", line)?;
    }
    Ok(())
}

// Whether a line of the parser's error is of what follows the error itself.
fn is_after(line: &str) -> bool {
    line.starts_with("Usage:") || line.starts_with("For more information")
}

// The usage of the command that was meant, if one was.
fn push_usage(text: &mut String, said: &str, words: &[&str]) -> Result<(), AllocError> {
    match meant(said, words) {
        Some(usage) => push_line(text, "usage: ", usage),
        None => Ok(()),
    }
}

// How the command is used that the first word names, or else the one that is like it.
fn meant(said: &str, words: &[&str]) -> Option<&'static str> {
    let first = words.first()?;
    match usage_of(first) {
        Some(usage) => Some(usage),
        None => usage_of(similar(said)?),
    }
}

// The one command that is like the first word, by the parser's error.
fn similar(said: &str) -> Option<&str> {
    for line in said.lines() {
        if let Some(name) = line.strip_prefix(SIMILAR) {
            return name.strip_suffix("'");
        }
    }
    None
}

// An indented line, unless it is empty.
fn push_line(text: &mut String, label: &str, line: &str) -> Result<(), AllocError> {
    if line.is_empty() {
        return Ok(());
    }
    text.push_str(INDENT)?;
    text.push_str(label)?;
    text.push_str(line)?;
    text.push_str("\n")
}
