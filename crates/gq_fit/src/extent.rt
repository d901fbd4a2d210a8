// Where values of a TOML text end.
// No contract: what is made of them is read again (`made`). Tests show them.
use crate::quantity_text::{QuantityForm, form_of};
use std::alloc::{AllocError, Global};
use toml_parser::text::{first, skip, skip_blank};
use toml_parser::{ParseError, quoted, starts_string, unquoted};

/// A value that stands in a text: how its numbers are written, of a list those of its elements in order, and how many bytes it has.
#[derive(Drop)]
pub(crate) struct Value {
    pub forms: Vec<QuantityForm>,
    pub length: usize,
}

/// The text after a value without brackets.
fn after_scalar(alloc: Global, rest: &str) -> Result<&str, ParseError> {
    if starts_string(rest) {
        Ok(quoted(alloc, rest)?.1)
    } else {
        Ok(unquoted(alloc, rest)?.1)
    }
}

/// The text after a list whose opening bracket is read, with the forms of its elements.
fn after_list<'t>(
    alloc: Global,
    forms: &mut Vec<QuantityForm>,
    text: &'t str,
) -> Result<Option<&'t str>, ParseError> {
    let mut rest = text;
    for _step in 0..text.len() {
        rest = skip_blank(rest, true);
        match first(rest) {
            b']' => return Ok(Some(skip(rest, 1))),
            b',' => rest = skip(rest, 1),
            _ => {
                forms.push(form_of(rest.as_bytes()))?;
                rest = after_scalar(alloc, rest)?;
            }
        }
    }
    Ok(None)
}

/// The value that begins here, and the text after it: a scalar, or a list of scalars.
fn parsed(alloc: Global, text: &str) -> Result<Option<Value>, ParseError> {
    let mut forms = Vec::new(alloc);
    let rest = if first(text) == b'[' {
        match after_list(alloc, &mut forms, skip(text, 1))? {
            Some(rest) => rest,
            None => return Ok(None),
        }
    } else {
        forms.push(form_of(text.as_bytes()))?;
        after_scalar(alloc, text)?
    };
    Ok(Some(Value {
        forms,
        length: text.len().saturating_sub(rest.len()),
    }))
}

/// The value that begins here: a scalar, or a list of scalars. `None` where there is another one.
pub(crate) fn value_of(alloc: Global, text: &str) -> Result<Option<Value>, AllocError> {
    match parsed(alloc, text) {
        Ok(value) => Ok(value),
        Err(ParseError::OutOfMemory) => Err(AllocError),
        Err(_) => Ok(None),
    }
}
