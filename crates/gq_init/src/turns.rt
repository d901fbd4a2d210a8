// Turns, settings and signals, as texts say them, and lines that bring all work to rest.
ghost use Rattle.std.specs.Prelude.{◌≡◌, ℕ, ◌==◌, [], ◌∷◌, ◌<◌, ◌≤◌, ◌^◌, ◌+◌, length, option_map, slice_index, IfNone, IfOk, IfSome};
ghost use Rattle.std.specs.Prelude.{alloc_error};
ghost use Rattle.gq_model.specs.declared.act.Act.TheVariants.{Turns};
ghost use Rattle.gq_model.specs.texts.Letters.{pieces};
ghost use Rattle.gq_model.specs.machine.Scenario.{components};
ghost use Rattle.gq_model.specs.declared.act.TurnLine.TheVariants.{Gives};
ghost use Rattle.gq_model.specs.texts.Turns.{line_turns, listed, turn_count, says_nothing};
ghost use Rattle.gq_model.specs.machine.Rest.{greatest_turns};
ghost use Rattle.gq_init.specs.Turn_items.{IsHeld, IsOf};
ghost use Rattle.gq_init.specs.internal.Ahead.{IsCommentAhead, IsCountAhead, IsLineAhead, IsTurnAhead};
ghost use Rattle.gq_init.specs.TurnLines.{IsTurned, given_in, line_turn};

use crate::item::{TurnItem, line_turns};
use crate::name_index::NameIndex;
use crate::settings::read_setting;
use crate::signals::read_word;
use crate::turn_list::TurnList;
use gq_model::act::{Act, TurnLine};
use gq_model::fault::TurnFault;
use gq_model::letters::{is_digit, is_name};
use gq_model::limits::{GREATEST_TURNS, GREATEST_TURNS_TEXT};
use gq_resolve::NodeTable;
use gq_scenario::scenario::LeafNo;
use gq_scenario::text_pieces::{next_line, next_piece};
use memchr::memchr;
use std::alloc::{AllocError, AllocFailed, Global};
use thiserror::Error;

/// Why a text gave no turns.
#[derive(Debug, Drop, Error)]
pub enum TurnsError {
    /// The host has no memory left.
    #[error("host memory refused")]
    Memory(AllocError),
    /// The first fault of the text, and its line from 1; a text that is too long has it at line 0.
    #[error("{fault} line {line}")]
    Fault { fault: TurnFault, line: u64 },
}

impl From<AllocError> for TurnsError {
    ghost use Rattle.gq_init.specs.declared.turns.TurnsError.TheVariants.{Memory};

    ghost from_gives = { λ a e. e ≡ Memory a };

    fn from(refused: AllocError) -> TurnsError {
        TurnsError::Memory(refused)
    }
}

impl<T: Drop> From<AllocFailed<T>> for TurnsError {
    ghost use Rattle.gq_init.specs.declared.turns.TurnsError.TheVariants.{Memory};

    ghost from_gives = { λ _ e. e ≡ Memory alloc_error };

    fn from(_failed: AllocFailed<T>) -> TurnsError {
        TurnsError::Memory(AllocError)
    }
}

// Whether a line says nothing: it is empty, or begins with `#`.
fn says_nothing(line: &[u8]) -> bool
    ensures { result ≡ says_nothing line.now }
{
    match line {
        [] => true,
        [first, ..] => *first == b'#',
    }
}

// The number that one to seven digits spell, of which the first is not 0.
fn read_count(text: &[u8]) -> Option<u32>
    ensures { result ≡ turn_count text.now }
{
    if text.is_empty() || text.len() > 7 || text[0] == b'0' {
        return None;
    }
    let mut number: u32 = 0;
    for byte in text {
        if !is_digit(*byte) {
            return None;
        }
        number = 10 * number + u32::from(*byte - b'0');
    }
    Some(number)
}

// The leaf and the number of turns of a line with this name and this number.
fn read_plain(
    name: &[u8],
    count: &[u8],
    table: &NodeTable,
    names: &NameIndex,
) -> Result<TurnLine, TurnFault>
    ensures turn { result ≡ given_in table.now (name.now ∷ count.now ∷ []) }
    ensures there { IfOk result (IsOf (length (components table.now))) }
    ensures held { IfOk result IsHeld }
{
    if !is_name(name) {
        return Err(TurnFault::BadLine);
    }
    let Some(count) = read_count(count) else {
        return Err(TurnFault::BadLine);
    };
    match names.leaf_named(name, table) {
        Some(leaf) => Ok(TurnLine::Gives(leaf.number(), Act::Turns(count))),
        None => Err(TurnFault::NoSuchComponent),
    }
}

// What a line gives that says something: turns, with two spaces a setting, and with none a signal or turns that bring all work to rest.
fn read_turn(line: &[u8], table: &NodeTable, names: &NameIndex) -> Result<TurnLine, TurnFault>
    ensures turn { result ≡ given_in table.now (pieces (λ c. c == 32) line.now) }
    ensures there { IfOk result (IsOf (length (components table.now))) }
    ensures held { IfOk result IsHeld }
{
    let (first, rest) = next_piece(line, b' ');
    let Some(rest) = rest else {
        return read_word(first, table, names);
    };
    let (second, rest) = next_piece(rest, b' ');
    match rest {
        Some(rest) => read_setting(first, second, rest, table, names),
        None => read_plain(first, second, table, names),
    }
}

// What a line gives after so many turns: nothing, or what it says, unless there are too many turns with it.
#[inline(never)]
fn read_line(
    line: &[u8],
    turns: u32,
    table: &NodeTable,
    names: &NameIndex,
) -> Result<Option<TurnLine>, TurnFault>
    requires { turns ≤ greatest_turns }
    ensures answer { result ≡ line_turn table.now turns line.now }
    ensures few { IfOk result (λ turn. IfSome turn (λ t. turns + line_turns t ≤ greatest_turns)) }
    ensures there { IfOk result (λ turn. IfSome turn (IsOf (length (components table.now)))) }
    ensures held { IfOk result (λ turn. IfSome turn IsHeld) }
{
    if says_nothing(line) {
        return Ok(None);
    }
    let turn = match read_turn(line, table, names) {
        Ok(turn) => turn,
        Err(fault) => return Err(fault),
    };
    if line_turns(turn) > GREATEST_TURNS - turns {
        return Err(TurnFault::TooMany);
    }
    Ok(Some(turn))
}

// The number that stands at the start of a text with a line feed behind it, and what follows that. `None` says nothing.
#[inline(always)]
fn count_ahead(text: &[u8]) -> Option<(u32, &[u8])>
    ensures { IfSome result (λ r. IsCountAhead text.now r.0 r.1.now) }
{
    if text.is_empty() || text[0] < b'1' || text[0] > b'9' {
        return None;
    }
    let mut number = u32::from(text[0] - b'0');
    for place in 1..text.len().min(8) {
        let byte = text[place];
        if byte == b'\n' {
            return Some((number, &text[place + 1..]));
        }
        if !is_digit(byte) {
            return None;
        }
        number = 10 * number + u32::from(byte - b'0');
    }
    None
}

/// The turn that the first line of a text is, in one go: a leaf's name, a space, a number and a line feed; and what follows it. `None` says nothing.
#[tactic(auto, using(crate::proofs::First_turn_line::turn_reported))]
#[inline(always)]
pub(crate) fn turn_ahead<'a>(
    text: &'a [u8],
    table: &NodeTable,
    names: &NameIndex,
) -> Option<((LeafNo, u32), &'a [u8])>
    ensures turn { IfSome result (λ r. IsTurnAhead table.now text.now (Gives r.0.0 (Turns r.0.1)) r.1.now) }
    ensures there { IfSome result (λ r. r.0.0 < length (components table.now)) }
{
    let Some((leaf, rest)) = names.leaf_ahead(text, table) else {
        return None;
    };
    match count_ahead(rest) {
        Some((count, after)) => Some(((leaf, count), after)),
        None => None,
    }
}

// The place of the first line feed, if there is one.
fn line_feed(text: &[u8]) -> Option<usize>
    ensures there { IfSome result (λ k. (k < length text.now) × (slice_index text.now k ≡ 10)) }
    ensures first { IfSome result (λ k. (j : ℕ) → j < k → slice_index text.now j ≡ 10 → ⊥) }
    ensures none { IfNone result ((j : ℕ) → j < length text.now → slice_index text.now j ≡ 10 → ⊥) }
{
    memchr(b'\n', text)
}

// What follows the first line, which begins with `#` and so says nothing. It is mostly a long one.
#[inline(never)]
fn after_comment(text: &[u8]) -> Option<&[u8]>
    requires some { 0 < length text.now }
    requires comment { slice_index text.now 0 ≡ 35 }
    ensures line { IsCommentAhead text.now (option_map (λ rest. rest.now) result) }
    ensures shorter { IfSome result (λ rest. length rest.now < length text.now) }
{
    match line_feed(text) {
        Some(place) => Some(&text[place + 1..]),
        None => None,
    }
}

/// What the first line of a text says after so many turns, and what follows its line feed.
#[tactic(auto, using(crate::proofs::First_turn_line::comment_reported))]
pub fn next_turn<'a>(
    text: &'a [u8],
    turns: u32,
    table: &NodeTable,
    names: &NameIndex,
) -> (Result<Option<TurnLine>, TurnFault>, Option<&'a [u8]>)
    requires { turns ≤ greatest_turns }
    ensures line { IsLineAhead table.now turns text.now result.0 (option_map (λ rest. rest.now) result.1) }
    ensures few { IfOk result.0 (λ turn. IfSome turn (λ t. turns + line_turns t ≤ greatest_turns)) }
    ensures there { IfOk result.0 (λ turn. IfSome turn (IsOf (length (components table.now)))) }
    ensures held { IfOk result.0 (λ turn. IfSome turn IsHeld) }
    ensures shorter { IfSome result.1 (λ rest. length rest.now < length text.now) }
{
    if !text.is_empty() && text[0] == b'#' {
        return (Ok(None), after_comment(text));
    }
    let (line, after) = next_line(text);
    (read_line(line, turns, table, names), after)
}

// For how many lines of a text there is room at the start. A line that gives something has four bytes or more, but for the last. So a list of turns alone never
// grows, since more than 1,000,000 are too many. One with settings, signals or `rest` may grow. Of what a list does not use the host gives no page.
fn room_for(text: &[u8]) -> usize {
    (text.len() / 4 + 1).min(GREATEST_TURNS as usize)
}

/// What the lines of a text give, in their order. Each has a leaf of the table's scenario, and a number of turns from 1 to 9,999,999, a value of one of its
/// inputs, or one of its signals; or it brings all work to rest.
///
/// Refused if memory runs out, and by the first fault of the text:
///
/// - a line of another form (in versions 1 and 2 a setting is one, and in versions 1 to 3 a signal and `rest`),
/// - a name that is no leaf's,
/// - an input that the leaf has not, or a value above its greatest,
/// - a signal that the leaf has not,
/// - more than 1,000,000 turns, of which those of `rest` are none,
/// - a text of more than 16 MiB, which is at line 0.
pub fn read_turns(
    alloc: Global,
    text: &[u8],
    table: &NodeTable,
) -> Result<Vec<TurnItem>, TurnsError>
    ensures { IsTurned result (listed table.now text.now) }
{
    if text.len() > GREATEST_TURNS_TEXT {
        return Err(TurnsError::Fault {
            fault: TurnFault::TooMany,
            line: 0,
        });
    }
    let names = NameIndex::of(table);
    let mut turns = TurnList::new(alloc, room_for(text))?;
    turns.read_lines(text, true, table, &names)?;
    turns.finish()
}
