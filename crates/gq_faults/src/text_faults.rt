// What is wrong on a line of a program's text, and which of its words.
// No contract: its results are places and details alone. Tests show them.
use crate::fault_value::{Mistake, Operand};
use crate::meant::Nearest;
use crate::program_lines::{LineWord, line_at, nth_word};
use gq_model::fault::TextFault;
use gq_model::limits::{GREATEST_ENTRIES, GREATEST_ROUNDS, LOCALS};
use gq_model::program::{Name, WithNumber};
use gq_model::section::SectionKind;
use gq_program::shapes::SHAPES;
use gq_program::{Shape, shape_of_word};
use gq_scenario::scenario::Leaf;
use gq_tariff::price::GREATEST_PLACE;
use std::alloc::{AllocError, Global};

// The operands of a line, of which there are three at most.
type Operands = [Option<Operand>; 3];

const NONE: Operands = [None, None, None];

// The words that open and close blocks.
const BLOCKS: [&str; 4] = ["if", "loop", "else", "end"];

fn one(operand: Operand) -> Operands {
    [Some(operand), None, None]
}

// The operands of a statement of the table.
fn of_shape(shape: Shape) -> Operands {
    match shape {
        Shape::Say => one(Operand::Said),
        Shape::Out | Shape::Plain(_) => NONE,
        Shape::Number(statement) => {
            let entry = statement.entry();
            one(Operand::Number(entry.low, entry.high))
        }
        Shape::Slot(_) => one(Operand::Slot),
        Shape::Bytes(_) => one(Operand::SlotOrObject),
        Shape::Amount(statement) => [
            Some(Operand::Slot),
            Some(Operand::Number(statement.low(), statement.high())),
            None,
        ],
        Shape::Pool => [
            Some(Operand::Slot),
            Some(Operand::Number(1, GREATEST_PLACE as u32)),
            Some(Operand::Number(1, GREATEST_ENTRIES as u32)),
        ],
        Shape::Open => [
            Some(Operand::Slot),
            Some(Operand::Service),
            Some(Operand::Number(0, u32::MAX)),
        ],
    }
}

// The operands of a line in a section.
fn of_statement(word: &[u8]) -> Option<Operands> {
    match word {
        b"if" | b"else" | b"end" => Some(NONE),
        b"loop" => Some(one(Operand::Number(1, GREATEST_ROUNDS as u32))),
        _ => match shape_of_word(word) {
            Some(shape) => Some(of_shape(shape)),
            None => None,
        },
    }
}

// The operands of a line outside of sections.
fn of_heading(word: &[u8]) -> Option<Operands> {
    match word {
        b"local" => Some([
            Some(Operand::Number(0, LOCALS as u32 - 1)),
            Some(Operand::Number(0, u32::MAX)),
            None,
        ]),
        _ => match SectionKind::of_word(word) {
            Some(kind) => Some(of_levels(kind.levels())),
            None => None,
        },
    }
}

// The operands of a heading with these levels.
fn of_levels(levels: Option<(u8, u8)>) -> Operands {
    match levels {
        Some((least, greatest)) => one(Operand::Number(u32::from(least), u32::from(greatest))),
        None => NONE,
    }
}

// The operands of a line with this first word, in a section or outside.
fn operands_of(is_inside: bool, word: &[u8]) -> Option<Operands> {
    if is_inside {
        of_statement(word)
    } else {
        of_heading(word)
    }
}

// A word as a text.
fn reported(alloc: Global, word: &[u8]) -> Result<String, AllocError> {
    String::from_str(alloc, str::from_utf8(word).unwrap_or("?"))
}

// Whether a statement may be meant in the program of a leaf. One that reads an input is not, where the leaf has none.
fn is_meant(shape: Shape, leaf: &Leaf) -> bool {
    match shape {
        Shape::Number(WithNumber::Input) => !leaf.inputs().is_empty(),
        _ => true,
    }
}

// The words like one with which a line in a section may begin.
fn near_statements(alloc: Global, leaf: &Leaf, word: &[u8]) -> Result<Vec<Name>, AllocError> {
    let mut nearest = Nearest::new(alloc);
    for shape in &SHAPES {
        if is_meant(*shape, leaf) {
            nearest.compare(word, shape.word())?;
        }
    }
    for other in &BLOCKS {
        nearest.compare(word, other.as_bytes())?;
    }
    Ok(nearest.names())
}

// Whether a heading may be meant in the program of a leaf. One of a section for a signal is not, where the leaf has no signals.
fn is_heading_meant(kind: SectionKind, leaf: &Leaf) -> bool {
    match kind {
        SectionKind::Reacting => leaf.signals() > 0,
        _ => true,
    }
}

// The words like one with which a line outside of sections may begin.
fn near_headings(alloc: Global, leaf: &Leaf, word: &[u8]) -> Result<Vec<Name>, AllocError> {
    let mut nearest = Nearest::new(alloc);
    for kind in SectionKind::ALL {
        if is_heading_meant(kind, leaf) {
            nearest.compare(word, kind.word().as_bytes())?;
        }
    }
    nearest.compare(word, b"local")?;
    Ok(nearest.names())
}

// The words like one with which a line may begin there; none for one with which a line elsewhere may.
fn near_words(
    alloc: Global,
    leaf: &Leaf,
    word: &[u8],
    is_inside: bool,
    is_elsewhere: bool,
) -> Result<Vec<Name>, AllocError> {
    match (is_elsewhere, is_inside) {
        (true, _) => Ok(Vec::new(alloc)),
        (false, true) => near_statements(alloc, leaf, word),
        (false, false) => near_headings(alloc, leaf, word),
    }
}

// A word with which no line begins there.
fn unknown(
    alloc: Global,
    leaf: &Leaf,
    word: &[u8],
    is_inside: bool,
) -> Result<Mistake, AllocError> {
    let is_elsewhere = operands_of(!is_inside, word).is_some();
    Ok(Mistake::Unknown {
        word: reported(alloc, word)?,
        is_inside,
        is_elsewhere,
        has_signals: leaf.signals() > 0,
        near: near_words(alloc, leaf, word, is_inside, is_elsewhere)?,
    })
}

// How many operands there are.
fn count_of(operands: &Operands) -> usize {
    let mut count = 0_usize;
    for operand in operands {
        if operand.is_some() {
            count = count.saturating_add(1);
        }
    }
    count
}

// The word behind the last operand of a line.
fn surplus(
    alloc: Global,
    line: &[u8],
    first: LineWord<'_>,
    operands: &Operands,
) -> Result<(usize, Mistake), AllocError> {
    let Some(word) = nth_word(line, count_of(operands).saturating_add(1)) else {
        return Ok((first.at, Mistake::Nothing));
    };
    let mistake = Mistake::Surplus {
        word: reported(alloc, word.text)?,
        first: reported(alloc, first.text)?,
        operands: *operands,
    };
    Ok((word.at, mistake))
}

// Whether a word is a number in a range, in one to ten digits.
fn is_number(word: &[u8], low: u32, high: u32) -> bool {
    let mut number = 0_u64;
    for byte in word {
        number = match *byte {
            digit @ b'0'..=b'9' => number
                .saturating_mul(10)
                .saturating_add(u64::from(digit - b'0')),
            _ => return false,
        };
    }
    1 <= word.len() && word.len() <= 10 && u64::from(low) <= number && number <= u64::from(high)
}

// Whether an operand is the one for which a line has this fault. The numbers before a bad one are good; a slot and a text stand before the numbers.
fn is_bad(fault: TextFault, operand: Operand, word: Option<LineWord<'_>>) -> bool {
    match (fault, operand) {
        (TextFault::BadNumber, Operand::Number(low, high)) => match word {
            Some(word) => !is_number(word.text, low, high),
            None => true,
        },
        (TextFault::BadSlot, Operand::Slot | Operand::SlotOrObject) => true,
        (TextFault::BadText, Operand::Service | Operand::Said) => true,
        _ => false,
    }
}

// An operand that is missing or is another word.
fn bad(
    alloc: Global,
    first: LineWord<'_>,
    word: Option<LineWord<'_>>,
    wanted: Operand,
) -> Result<(usize, Mistake), AllocError> {
    let (at, word) = match word {
        Some(word) => (word.at, Some(reported(alloc, word.text)?)),
        None => (first.at, None),
    };
    Ok((at, Mistake::Operand { word, wanted }))
}

// The first operand of a line that is missing or is another word.
fn first_bad(
    alloc: Global,
    line: &[u8],
    first: LineWord<'_>,
    operands: &Operands,
    fault: TextFault,
) -> Result<(usize, Mistake), AllocError> {
    for (place, operand) in operands.iter().enumerate() {
        let word = nth_word(line, place.saturating_add(1));
        if let Some(wanted) = operand {
            if is_bad(fault, *wanted, word) {
                return bad(alloc, first, word, *wanted);
            }
        }
    }
    Ok((first.at, Mistake::Nothing))
}

// What is wrong on a line with this first word.
fn mistake_in(
    alloc: Global,
    leaf: &Leaf,
    line: &[u8],
    is_inside: bool,
    first: LineWord<'_>,
    fault: TextFault,
) -> Result<(usize, Mistake), AllocError> {
    match (operands_of(is_inside, first.text), fault) {
        (None, TextFault::UnknownWord) => {
            Ok((first.at, unknown(alloc, leaf, first.text, is_inside)?))
        }
        (Some(operands), TextFault::UnknownWord) => surplus(alloc, line, first, &operands),
        (Some(operands), _) => first_bad(alloc, line, first, &operands, fault),
        (None, _) => Ok((first.at, Mistake::Nothing)),
    }
}

/// Returns what is wrong on a line of the text of a leaf's program that has a fault, and the byte, from 0, with which the wrong word begins. Where a word is
/// missing, that is the first one of the line.
pub(crate) fn mistake_on(
    alloc: Global,
    leaf: &Leaf,
    text: &[u8],
    fault: TextFault,
    number: usize,
) -> Result<(usize, Mistake), AllocError> {
    let Some((line, is_inside)) = line_at(text, number) else {
        return Ok((0, Mistake::Nothing));
    };
    match nth_word(line, 0) {
        Some(first) => mistake_in(alloc, leaf, line, is_inside, first, fault),
        None => Ok((0, Mistake::Nothing)),
    }
}
