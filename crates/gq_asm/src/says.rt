// The text of `say`.
ghost use Rattle.std.specs.Prelude.{◌≡◌, option_copied, IfOk};
ghost use Rattle.gq_model.specs.texts.Spelling.{quoted, said_in};

use crate::line_words::{is_all_blank, unindented};
use gq_model::program::Text;
use std::alloc::{AllocError, Global};

/// The bytes up to a quotation mark, which only blanks follow.
fn quoted(text: &[u8]) -> Option<&[u8]>
    ensures { option_copied result ≡ quoted text.now }
{
    for (i, byte) in text.iter().enumerate() {
        if *byte == b'"' {
            if is_all_blank(&text[i + 1..]) {
                return Some(&text[..i]);
            }
            return None;
        }
    }
    None
}

/// The text between quotation marks that stands after `say` on its line. Refused only if the host refuses memory.
pub fn said_in(alloc: Global, after: &[u8]) -> Result<Option<Text>, AllocError>
    ensures { IfOk result (λ text. text ≡ said_in after.now) }
{
    let [b'"', rest @ ..] = unindented(after) else {
        return Ok(None);
    };
    match quoted(rest) {
        Some(text) => Text::new(alloc, text),
        None => Ok(None),
    }
}
