// Texts that differ in the values of quantities alone, or in what statements give as well.
ghost use Rattle.std.specs.Prelude.{◌≡◌, ◌&&◌, [], IfErr, IfOk, OnOk};
ghost use Rattle.gq_fit.specs.Places.{lexer_in};
ghost use Rattle.gq_fit.specs.internal.Making.{IsDueError};
ghost use Rattle.gq_fit.specs.Value_edits.{DiffersInValues, EndsAs, is_list, is_spelled, is_spelled_byte, is_value, is_value_byte};
ghost use Rattle.gq_model.specs.machine.Lists.{all_of};

use crate::fit_fault::{MakeError, Misfit};
use crate::lexer::Lexer;
use std::alloc::{AllocError, Global};

/// A value of a text, from one offset up to another, and what is to stand in its place.
#[derive(Drop)]
pub(crate) struct Edit {
    pub at: usize,
    pub end: usize,
    pub new: Vec<u8>,
}

/// Whether a byte can stand in a number or a short text.
fn is_value_byte(byte: u8) -> bool
    ensures { result ≡ is_value_byte byte }
{
    byte.is_ascii_alphanumeric() || matches!(byte, b'"' | b'\'' | b'_' | b'+' | b'\\')
}

/// Whether a byte can stand in quantities that are written anew.
fn is_spelled_byte(byte: u8) -> bool
    ensures { result ≡ is_spelled_byte byte }
{
    byte.is_ascii_digit()
        || matches!(
            byte,
            b'G' | b'M' | b'K' | b'"' | b'\'' | b'[' | b']' | b',' | b' '
        )
}

/// Whether all bytes can stand in a number or a short text.
fn is_scalar(bytes: &[u8]) -> bool
    ensures { result ≡ all_of is_value_byte bytes.now }
{
    for byte in bytes {
        if !is_value_byte(*byte) {
            return false;
        }
    }
    true
}

/// Whether bytes can be quantities that are written anew.
fn is_spelled(bytes: &[u8]) -> bool
    ensures { result ≡ is_spelled bytes.now }
{
    for byte in bytes {
        if !is_spelled_byte(*byte) {
            return false;
        }
    }
    true
}

/// Whether bytes are a list, from its bracket up to the one that closes it.
fn is_list(alloc: Global, bytes: &[u8]) -> Result<bool, AllocError>
    ensures { IfOk result (λ is. is ≡ is_list bytes.now) }
{
    match bytes {
        [b'[', rest @ ..] => Lexer::new(alloc).closes(rest),
        _ => Ok(false),
    }
}

/// Whether bytes can be a value: a list, a number or a short text.
fn is_value(alloc: Global, bytes: &[u8]) -> Result<bool, AllocError>
    ensures { IfOk result (λ is. is ≡ is_value bytes.now) }
{
    Ok(is_list(alloc, bytes)? || is_scalar(bytes))
}

/// Whether quantities that are written anew can stand in the place of a value.
fn is_change(alloc: Global, old: &[u8], new: &[u8]) -> Result<bool, AllocError>
    ensures { IfOk result (λ is. is ≡ (is_value old.now && is_spelled new.now)) }
{
    Ok(is_value(alloc, old)? && is_spelled(new))
}

/// Puts what is left of a text, from an offset on, at the end of another, with these edits, of which each begins after the one before. A lexer has passed what
/// stands before.
fn push_edited(
    alloc: Global,
    made: &mut Vec<u8>,
    lexer: &mut Lexer,
    with_gifts: bool,
    rest: &[u8],
    offset: usize,
    edits: &[Edit],
) -> Result<(), MakeError>
    ensures ends { OnOk result (EndsAs with_gifts (lexer_in lexer.old.mode lexer.old.line.items) rest.now made.old.items made.new.items) }
    ensures due { IfErr result (λ e. IsDueError e []) }
{
    let [edit, others @ ..] = edits else {
        made.extend_from_slice(rest)?;
        return Ok(());
    };
    if edit.at < offset || edit.end < edit.at || edit.end - offset > rest.len() {
        return Err(MakeError::Misfit(Misfit::Differs));
    }
    let (kept, value) = rest.split_at(edit.at - offset);
    let (value, left) = value.split_at(edit.end - edit.at);
    let new = edit.new.as_slice();
    lexer.pass(kept)?;
    if !lexer.is_at_place(with_gifts) || !is_change(alloc, value, new)? {
        return Err(MakeError::Misfit(Misfit::Differs));
    }
    lexer.pass(value)?;
    made.extend_from_slice(kept)?;
    made.extend_from_slice(new)?;
    push_edited(alloc, made, lexer, with_gifts, left, edit.end, others)
}

/// A text with these edits, of which each begins after the one before. What stands between them stays byte for byte.
///
/// Fails with `Differs` where one begins before the end of another or ends after the text, where it stands in no place of a quantity (nor of what a statement
/// gives, if that is fitted), or where something else than a value is to be replaced, or is to replace it.
pub(crate) fn edited(
    alloc: Global,
    with_gifts: bool,
    text: &[u8],
    edits: &[Edit],
) -> Result<Vec<u8>, MakeError>
    ensures layout { IfOk result (λ made. DiffersInValues with_gifts text.now made.items) }
    ensures due { IfErr result (λ e. IsDueError e []) }
{
    let mut made = Vec::new(alloc);
    let mut lexer = Lexer::new(alloc);
    push_edited(alloc, &mut made, &mut lexer, with_gifts, text, 0, edits)?;
    Ok(made)
}
