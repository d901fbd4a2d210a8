// The details of a line of turns, of a setting or of a signal, and which of its words is wrong.
// No contract: its results are places and details alone. Tests show them.
use crate::details::{push_inputs, push_signals};
use crate::fault_lines::push_line;
use crate::meant::{Nearest, compare_leaves};
use crate::program_lines::nth_word;
use crate::text_details::push_comment;
use crate::turn_faults::WrongLine;
use crate::value_words::Details;
use gq_model::fault::TurnFault;
use gq_model::letters::is_name;
use gq_model::limits::GREATEST_TURNS;
use gq_resolve::NodeTable;
use std::alloc::{AllocError, Global};

// What stands before the first blank of a line.
fn name_in(line: &[u8]) -> &[u8] {
    match line.iter().position(|byte| *byte == b' ') {
        Some(end) => line.get(..end).unwrap_or(line),
        None => line,
    }
}

// The name of the leaf of a line: what stands before the first blank, dot or exclamation mark.
fn leaf_in(line: &[u8]) -> &[u8] {
    match line
        .iter()
        .position(|byte| matches!(*byte, b' ' | b'.' | b'!'))
    {
        Some(end) => line.get(..end).unwrap_or(line),
        None => line,
    }
}

// Whether a word is one to seven digits, of which the first is not 0.
fn is_count(word: &[u8]) -> bool {
    match word {
        [b'1'..=b'9', rest @ ..] => {
            rest.len() < 7 && rest.iter().all(|byte| byte.is_ascii_digit())
        }
        _ => false,
    }
}

// Whether a word is one to ten digits of a number up to 4294967295.
fn is_value(word: &[u8]) -> bool {
    let mut number = 0_u64;
    for byte in word {
        if !byte.is_ascii_digit() {
            return false;
        }
        number = number
            .saturating_mul(10)
            .saturating_add(u64::from(*byte - b'0'));
    }
    !word.is_empty() && word.len() <= 10 && number <= u64::from(u32::MAX)
}

// Whether the second word of a line is an equals sign, so that it is meant as a setting.
fn is_meant_as_setting(line: &[u8]) -> bool {
    match nth_word(line, 1) {
        Some(sign) => sign.text == b"=".as_slice(),
        None => false,
    }
}

// Whether an exclamation mark stands behind the name of a line, so that it is meant as a signal.
fn is_meant_as_signal(line: &[u8]) -> bool {
    matches!(line.get(leaf_in(line).len()), Some(b'!'))
}

// Whether a line is meant to bring all work to rest.
fn is_meant_as_rest(line: &[u8]) -> bool {
    match nth_word(line, 0) {
        Some(word) => word.text == b"rest".as_slice(),
        None => false,
    }
}

// The byte with which that begins what is wrong on a line that is meant as a signal: a name, the number of a signal, or what follows it.
fn signal_at(line: &[u8]) -> usize {
    let name = leaf_in(line);
    if !is_name(name) {
        return 0;
    }
    match line.get(name.len()..) {
        Some([b'!', b'0'..=b'2', ..]) => name.len().saturating_add(2),
        _ => name.len().saturating_add(1),
    }
}

// The byte with which that begins what is wrong on a line that is meant as a setting: a name, the number of an input, a value, or what follows it.
fn setting_at(line: &[u8]) -> usize {
    let name = leaf_in(line);
    let input = name.len().saturating_add(1);
    if !is_name(name) {
        return 0;
    }
    let first = name_in(line);
    match first.get(name.len()..) {
        Some([b'.', b'0'..=b'7']) => (),
        _ => return input,
    }
    let value = first.len().saturating_add(3);
    match (nth_word(line, 1), nth_word(line, 2)) {
        (Some(sign), _) if sign.at != first.len().saturating_add(1) => sign.at,
        (_, Some(number)) if number.at == value && is_value(number.text) => {
            match nth_word(line, 3) {
                Some(more) => more.at,
                None => value.saturating_add(number.text.len()),
            }
        }
        (_, Some(number)) => number.at,
        _ => line.len(),
    }
}

// The byte, from 0, with which that begins what is wrong on a line of another form: a name, a number that is no count, or what follows the number.
fn form_at(line: &[u8]) -> usize {
    if is_meant_as_setting(line) {
        return setting_at(line);
    }
    if is_meant_as_signal(line) {
        return signal_at(line);
    }
    let name = name_in(line);
    let behind = name.len().saturating_add(1);
    if !is_name(name) || behind > line.len() {
        return 0;
    }
    match nth_word(line, 1) {
        Some(count) if count.at == behind && is_count(count.text) => match nth_word(line, 2) {
            Some(more) => more.at,
            None => behind.saturating_add(count.text.len()),
        },
        _ => behind,
    }
}

/// The byte, from 0, with which that begins what is wrong on a line of turns.
pub(crate) fn wrong_at(wrong: &WrongLine<'_>) -> usize {
    match wrong.fault {
        TurnFault::BadLine => form_at(wrong.text),
        TurnFault::NoSuchComponent => 0,
        TurnFault::NoInput | TurnFault::NoSignal => leaf_in(wrong.text).len().saturating_add(1),
        TurnFault::InputTooLarge => name_in(wrong.text).len().saturating_add(3),
        TurnFault::TooMany => name_in(wrong.text).len().saturating_add(1),
    }
}

// The form of a line that is a signal, and of one that brings all work to rest.
fn push_signal_form(
    reported: &mut Details,
    table: &NodeTable,
    line: &[u8],
) -> Result<(), AllocError> {
    if table.scenario().version().number() >= 4 {
        reported.line("a signal is NAME!I: I is 0 to 2; a line rest brings all work to rest")
    } else if is_meant_as_signal(line) || is_meant_as_rest(line) {
        reported.line(
            "only a scenario of version 4 has signals, and lines that bring all work to rest",
        )
    } else {
        Ok(())
    }
}

// The form of a line.
fn push_form(reported: &mut Details, table: &NodeTable, line: &[u8]) -> Result<(), AllocError> {
    reported.line(
        "a line of turns is NAME COUNT, and COUNT has one to seven digits, the first not 0",
    )?;
    if table.scenario().version().number() >= 3 {
        reported.line(
            "a setting is NAME.I = N: I is 0 to 7, N has one to ten digits and is at most 4294967295",
        )?;
    } else if is_meant_as_setting(line) {
        reported.line("only a scenario of version 3 or 4 has inputs that can be set")?;
    }
    push_signal_form(reported, table, line)?;
    match line.get(form_at(line)..) {
        Some(word) => push_comment(reported, word),
        None => Ok(()),
    }
}

// On how many lines names are compared with those of leaves. A long text may have a million of them.
const LINES_COMPARED: u64 = 10_000;

// A name that is no leaf's, and those of leaves that are like it.
fn push_unknown(
    reported: &mut Details,
    table: &NodeTable,
    wrong: &WrongLine<'_>,
) -> Result<(), AllocError> {
    let name = leaf_in(wrong.text);
    let mut nearest = Nearest::new(reported.alloc());
    if wrong.line <= LINES_COMPARED {
        compare_leaves(&mut nearest, name, table.scenario().nodes())?;
    }
    reported.raw(name)?;
    reported.text(" is no leaf")?;
    reported.meant(nearest.names().as_slice())?;
    reported.end()
}

// An input that a leaf has not, or a value that is too large for it, and the inputs that the leaf has.
fn push_bad_input(
    reported: &mut Details,
    table: &NodeTable,
    wrong: &WrongLine<'_>,
) -> Result<(), AllocError> {
    let at = wrong_at(wrong);
    if let TurnFault::NoInput = wrong.fault {
        reported.text("input ")?;
    }
    reported.raw(name_in(wrong.text.get(at..).unwrap_or(wrong.text)))?;
    reported.text(", and ")?;
    match table.leaf_named(leaf_in(wrong.text)) {
        Some(leaf) => push_inputs(reported, table.inputs(leaf))?,
        None => reported.text("there is no such leaf")?,
    }
    reported.end()
}

// A signal that a leaf has not, and how many it has.
fn push_bad_signal(
    reported: &mut Details,
    table: &NodeTable,
    wrong: &WrongLine<'_>,
) -> Result<(), AllocError> {
    reported.text("signal ")?;
    reported.raw(wrong.text.get(wrong_at(wrong)..).unwrap_or(wrong.text))?;
    reported.text(", and ")?;
    match table.leaf_named(leaf_in(wrong.text)) {
        Some(leaf) => push_signals(reported, table.signals(leaf))?,
        None => reported.text("there is no such leaf")?,
    }
    reported.end()
}

/// The details of a line of turns, of a setting or of a signal that is wrong.
pub(crate) fn turn_details(
    alloc: Global,
    table: &NodeTable,
    wrong: &WrongLine<'_>,
) -> Result<Details, AllocError> {
    let mut details = Details::new(alloc);
    let line = str::from_utf8(wrong.text).unwrap_or("this is no UTF-8");
    push_line(&mut details, line)?;
    match wrong.fault {
        TurnFault::BadLine => push_form(&mut details, table, wrong.text)?,
        TurnFault::NoSuchComponent => push_unknown(&mut details, table, wrong)?,
        TurnFault::NoInput | TurnFault::InputTooLarge => push_bad_input(
            &mut details,
            table,
            wrong,
        )?,
        TurnFault::NoSignal => push_bad_signal(&mut details, table, wrong)?,
        TurnFault::TooMany => {
            details.more_than(wrong.total, "turns", u64::from(GREATEST_TURNS))?
        }
    }
    Ok(details)
}
