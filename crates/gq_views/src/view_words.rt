// Words, numbers and lines that are put at the end of a text.
ghost use Rattle.std.specs.Prelude.{◌≡◌, ◌++◌, ◌∷◌, [], OnOk, codes, decimal};
ghost use Rattle.gq_model.specs.machine.Accounts.{entry};
ghost use Rattle.gq_views.specs.Listing.{indent, line};
ghost use Rattle.gq_views.specs.Tree.{amounts};

use itoa::Buffer;
use std::alloc::AllocError;

// Puts a number at the end of a text.
pub fn push_number(text: &mut Vec<u8>, number: u64) -> Result<(), AllocError>
    ensures { OnOk result (text.new.items ≡ text.old.items ++ decimal number) }
{
    text.extend_from_slice(Buffer::new().format(number).as_bytes())
}

// Puts a number at the end of a text, behind a blank.
pub fn push_amount(text: &mut Vec<u8>, number: u64) -> Result<(), AllocError>
    ensures { OnOk result (text.new.items ≡ text.old.items ++ codes " " ++ decimal number) }
{
    text.extend_from_slice(b" ")?;
    push_number(text, number)
}

// Puts these numbers at the end of a text, each behind a blank.
pub fn push_amounts(text: &mut Vec<u8>, numbers: &[u32]) -> Result<(), AllocError>
    ensures { OnOk result (text.new.items ≡ text.old.items ++ amounts numbers.now) }
{
    for number in numbers {
        push_amount(text, u64::from(*number))?;
    }
    Ok(())
}

// Puts a word and a number at the end of a text, each behind a blank.
pub fn push_entry(text: &mut Vec<u8>, word: &[u8], number: u64) -> Result<(), AllocError>
    ensures { OnOk result (text.new.items ≡ text.old.items ++ entry word.now number) }
{
    text.extend_from_slice(b" ")?;
    text.extend_from_slice(word)?;
    push_amount(text, number)
}

// Puts two blanks for each block around at the end of a text.
pub(crate) fn push_indent(text: &mut Vec<u8>, depth: usize) -> Result<(), AllocError>
    ensures { OnOk result (text.new.items ≡ text.old.items ++ indent depth) }
{
    let mut left = depth;
    while left > 0 {
        text.extend_from_slice(b"  ")?;
        left -= 1;
    }
    Ok(())
}

// Ends a line.
pub fn end_line(text: &mut Vec<u8>) -> Result<(), AllocError>
    ensures { OnOk result (text.new.items ≡ text.old.items ++ 10 ∷ []) }
{
    text.extend_from_slice(b"\n")
}

// Puts a line of these words at the end of a text.
pub(crate) fn push_line(text: &mut Vec<u8>, depth: usize, words: &[u8]) -> Result<(), AllocError>
    ensures { OnOk result (text.new.items ≡ text.old.items ++ line depth words.now) }
{
    push_indent(text, depth)?;
    text.extend_from_slice(words)?;
    end_line(text)
}
