// The details of a line of a program's text.
// No contract: its results are details alone. Tests show them.
use crate::fault_value::{Mistake, Operand};
use crate::value_words::Details;
use gq_model::program::Name;
use gq_reader::rules::ValueRule;
use std::alloc::AllocError;

/// Puts what is wrong on a line of a program's text at the end of details.
pub(crate) fn push_mistake(reported: &mut Details, mistake: &Mistake) -> Result<(), AllocError> {
    match mistake {
        Mistake::Nothing => Ok(()),
        Mistake::Unknown {
            word,
            is_inside,
            is_elsewhere,
            has_signals,
            near,
        } => {
            unknown(
                reported,
                word.as_str(),
                *is_inside,
                *is_elsewhere,
                near.as_slice(),
            )?;
            begins(reported, *is_inside, *has_signals)?;
            push_comment(reported, word.as_bytes())
        }
        Mistake::Surplus {
            word,
            first,
            operands,
        } => {
            surplus(reported, word.as_str(), first.as_str(), operands)?;
            push_comment(reported, word.as_bytes())
        }
        Mistake::Operand { word, wanted } => match word {
            Some(word) => other_word(reported, word.as_str(), *wanted),
            None => no_word(reported, *wanted),
        },
    }
}

/// Puts at the end of details where comments stand, if a word looks as if it began one.
pub(crate) fn push_comment(reported: &mut Details, word: &[u8]) -> Result<(), AllocError> {
    match word {
        [b'#' | b';', ..] | [b'/', b'/', ..] | [b'-', b'-', ..] => {
            reported.line("a comment stands on a line of its own, which begins with #")
        }
        _ => Ok(()),
    }
}

// A word with which no line begins there, and those like it with which one does.
fn unknown(
    reported: &mut Details,
    word: &str,
    is_inside: bool,
    is_elsewhere: bool,
    near: &[Name],
) -> Result<(), AllocError> {
    reported.quoted(word)?;
    reported.text(match (is_inside, is_elsewhere) {
        (true, true) => " stands outside of sections, and this section has no end yet",
        (true, false) => " is no statement",
        (false, true) => " stands in a section, and none has begun",
        (false, false) => " is no heading",
    })?;
    reported.meant(near)?;
    reported.end()
}

// With what a line begins, in the program of a leaf that has signals or none.
fn begins(reported: &mut Details, is_inside: bool, has_signals: bool) -> Result<(), AllocError> {
    reported.line(match (is_inside, has_signals) {
        (true, _) => "a line in a section begins with a statement, if, loop, else or end",
        (false, true) => {
            "a line outside of sections begins with main, open, up, call, close, on or local"
        }
        (false, false) => {
            "a line outside of sections begins with main, open, up, call, close or local"
        }
    })
}

// The word of an operand in the form of a line.
fn operand_word(operand: Operand) -> &'static str {
    match operand {
        Operand::Number(_, _) => " NUMBER",
        Operand::Slot | Operand::SlotOrObject => " SLOT",
        Operand::Service => " SERVICE",
        Operand::Said => " TEXT",
    }
}

// A word that is one too many, and the form of a line with this first word.
fn surplus(
    reported: &mut Details,
    word: &str,
    first: &str,
    operands: &[Option<Operand>; 3],
) -> Result<(), AllocError> {
    reported.quoted(word)?;
    reported.text(" is a word too many: the whole line is ")?;
    reported.quoted(first)?;
    for operand in operands {
        if let Some(operand) = operand {
            reported.text(operand_word(*operand))?;
        }
    }
    reported.end()
}

// What an operand is.
fn operand(reported: &mut Details, operand: Operand) -> Result<(), AllocError> {
    match operand {
        Operand::Number(low, high) => {
            reported.range("a number", u64::from(low), u64::from(high))?;
            reported.text(", in one to ten digits")
        }
        Operand::Slot => reported.text("a slot, o0 to o63 or s0 to s7"),
        Operand::SlotOrObject => reported.text("a slot, o0 to o63 or s0 to s7, or obj"),
        Operand::Service => reported.rule(ValueRule::NameText),
        Operand::Said => reported.text("a text of at most 64 letters, between quotation marks"),
    }
}

// Another word than an operand.
fn other_word(reported: &mut Details, word: &str, wanted: Operand) -> Result<(), AllocError> {
    reported.quoted(word)?;
    reported.text(": wanted is ")?;
    operand(reported, wanted)?;
    reported.end()
}

// No word where an operand has to stand.
fn no_word(reported: &mut Details, wanted: Operand) -> Result<(), AllocError> {
    reported.text("wanted is ")?;
    operand(reported, wanted)?;
    reported.text(", and nothing stands there")?;
    reported.end()
}
