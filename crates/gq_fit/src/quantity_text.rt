// Quantities as texts of TOML.
// No contract: what is made of them is read again (`made`). Tests show them.
use gq_views::view_words::push_number;
use std::alloc::AllocError;

/// How a quantity is written.
#[derive(Clone, Copy)]
pub(crate) enum QuantityForm {
    /// As a whole number.
    Whole,
    /// As a text between these quotes.
    Text(&'static [u8]),
}

/// The suffixes of quantities, the greatest first, each with the power of two that it stands for.
const SUFFIXES: [(&[u8], u32); 3] = [(b"G", 30), (b"M", 20), (b"K", 10)];

/// The form of the value that begins here.
pub(crate) fn form_of(rest: &[u8]) -> QuantityForm {
    if rest.starts_with(b"\"\"\"") {
        QuantityForm::Text(b"\"\"\"")
    } else if rest.starts_with(b"'''") {
        QuantityForm::Text(b"'''")
    } else if rest.starts_with(b"\"") {
        QuantityForm::Text(b"\"")
    } else if rest.starts_with(b"'") {
        QuantityForm::Text(b"'")
    } else {
        QuantityForm::Whole
    }
}

/// Puts a number with the greatest suffix that divides it at the end of a text.
fn push_scaled(text: &mut Vec<u8>, number: u64) -> Result<(), AllocError> {
    for (suffix, power) in &SUFFIXES {
        if number != 0 && number % (1 << *power) == 0 {
            push_number(text, number >> *power)?;
            return text.extend_from_slice(suffix);
        }
    }
    push_number(text, number)
}

/// Puts a quantity in a form at the end of a text.
pub(crate) fn push_quantity(
    text: &mut Vec<u8>,
    form: QuantityForm,
    number: u64,
) -> Result<(), AllocError> {
    match form {
        QuantityForm::Whole => push_number(text, number),
        QuantityForm::Text(quotes) => {
            text.extend_from_slice(quotes)?;
            push_scaled(text, number)?;
            text.extend_from_slice(quotes)
        }
    }
}
