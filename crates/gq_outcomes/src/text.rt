// The outcomes of a scenario as text.
ghost use Rattle.std.specs.Prelude.{◌≡◌, ◌<◌, ◌++◌, ◌∷◌, [], true, false, Some, All, IfOk, OnOk, length, map, slice_get};
ghost use Rattle.gq_model.specs.machine.Accounts.{Account, account_line};
ghost use Rattle.gq_model.specs.machine.Scenario.{components};
ghost use Rattle.gq_resolve.specs.NodeTables.{node_rows};
ghost use Rattle.gq_world.specs.Account_lines.{accounts_text, all_accounts};
ghost use Rattle.gq_outcomes.specs.Outcomes.{lines_of};
ghost use Rattle.gq_outcomes.specs.Text as spec;
ghost use Rattle.gq_outcomes.specs.Text.{count_text, counted_word, many_lines, outcomes_text_from, row_line, rows_of};
ghost use Rattle.gq_outcomes.specs.internal.Found_outcomes.{outcome_seen};
ghost use Rattle.gq_outcomes.specs.internal.Turn_rows.{past_of};
ghost use Rattle.gq_views.specs.Listing.{joined};

use crate::search::{Found, MOST_TURNS, Search};
use gq_init::NodeTable;
use gq_model::limits::GREATEST_TURNS;
use gq_output::account_line::account_line;
use gq_output::line::Line;
use gq_scenario::node_numbers::NodeNo;
use gq_scenario::scenario::LeafNo;
use gq_views::view_words::push_number;
use gq_world::world::World;
use std::alloc::{AllocError, Global};

// The most turns of a line of a list of turns, whose number has at most seven digits.
const GREATEST_ROW: u32 = 9_999_999;

// The line of the account of a node.
fn account_of(world: &World, node: NodeNo) -> Line
    requires { node < length (node_rows world.now.scenario) }
    ensures { (a : Account) → slice_get (all_accounts world.now) node ≡ Some a → result.items ≡ account_line world.now.scenario.version a }
{
    let _machine = world.machine();
    let account = world.account(node);
    let table = world.table();
    account_line(table.scenario().version(), table.label(node), &account)
}

// Puts the lines of all accounts.
fn push_accounts(text: &mut Vec<u8>, world: &World) -> Result<(), AllocError>
    ensures { OnOk result (text.new.items ≡ text.old.items ++ accounts_text world.now) }
{
    for number in 0..world.nodes() {
        let line = account_of(world, NodeNo::new(number as u32));
        text.extend_from_slice(line.as_slice())?;
    }
    Ok(())
}

// Puts the lines of leaves.
fn push_lines(text: &mut Vec<u8>, said: &[Vec<u8>]) -> Result<(), AllocError>
    ensures { OnOk result (text.new.items ≡ text.old.items ++ lines_of (map (λ l. l.items) said.now)) }
{
    for lines in said {
        text.extend_from_slice(lines.as_slice())?;
    }
    Ok(())
}

/// The text of an outcome: what leaves that provide nothing have written, and all account lines.
pub(crate) fn outcome_text(
    alloc: Global,
    world: &World,
    said: &[Vec<u8>],
) -> Result<Vec<u8>, AllocError>
    ensures { IfOk result (λ t. t.items ≡ lines_of (map (λ l. l.items) said.now) ++ accounts_text world.now) }
{
    let mut text = Vec::new(alloc);
    push_lines(&mut text, said)?;
    push_accounts(&mut text, world)?;
    Ok(text)
}

// Puts an outcome of this number.
fn push_outcome(text: &mut Vec<u8>, number: usize, found: &Found) -> Result<(), AllocError>
    ensures { OnOk result (text.new.items ≡ text.old.items ++ spec.outcome_text number (outcome_seen found.now)) }
{
    text.extend_from_slice(b"outcome ")?;
    push_number(text, number as u64)?;
    text.extend_from_slice(b" after ")?;
    push_number(text, found.past.len() as u64)?;
    text.extend_from_slice(b" turns\n")?;
    text.extend_from_slice(found.text.as_slice())
}

// The word behind a number of outcomes.
fn counted_word(count: usize) -> &'static [u8]
    ensures { result.now ≡ counted_word count }
{
    if count == 1 {
        b" outcome\n"
    } else {
        b" outcomes\n"
    }
}

// Puts how many there are.
fn push_all_counted(text: &mut Vec<u8>, count: usize) -> Result<(), AllocError>
    ensures { OnOk result (text.new.items ≡ text.old.items ++ count_text false count) }
{
    push_number(text, count as u64)?;
    text.extend_from_slice(counted_word(count))
}

// Puts how many were found before more turns were wanted.
#[tactic(auto, unfolding(crate::specs::Outcomes::most_turns))]
fn push_cut_counted(text: &mut Vec<u8>, count: usize) -> Result<(), AllocError>
    ensures { OnOk result (text.new.items ≡ text.old.items ++ count_text true count) }
{
    text.extend_from_slice(b"# cut after ")?;
    push_number(text, u64::from(MOST_TURNS))?;
    text.extend_from_slice(b" turns, ")?;
    push_number(text, count as u64)?;
    text.extend_from_slice(b" outcomes so far\n")
}

// Puts how many there are, or how many were found before more turns were wanted.
fn push_count(text: &mut Vec<u8>, cut: bool, count: usize) -> Result<(), AllocError>
    ensures { OnOk result (text.new.items ≡ text.old.items ++ count_text cut count) }
{
    if cut {
        push_cut_counted(text, count)
    } else {
        push_all_counted(text, count)
    }
}

// Puts all of these outcomes.
fn push_outcomes(text: &mut Vec<u8>, all: &[Found]) -> Result<(), AllocError>
    ensures { OnOk result (text.new.items ≡ text.old.items ++ outcomes_text_from 1 (map outcome_seen all.now)) }
{
    for place in 0..all.len() {
        push_outcome(text, place + 1, &all[place])?;
    }
    Ok(())
}

/// All outcomes that were found.
pub(crate) fn search_text(alloc: Global, search: &Search) -> Result<Vec<u8>, AllocError>
    ensures { IfOk result (λ t. t.items ≡ outcomes_text_from 1 (map outcome_seen search.now.found.items)
        ++ count_text search.now.cut (length search.now.found.items)) }
{
    let mut text = Vec::new(alloc);
    push_outcomes(&mut text, search.found.as_slice())?;
    push_count(&mut text, search.cut, search.found.len())?;
    Ok(text)
}

// Puts a line of turns of a leaf.
fn push_row(text: &mut Vec<u8>, table: &NodeTable, leaf: u8, count: u32) -> Result<(), AllocError>
    requires { leaf < length (components table.now) }
    ensures { OnOk result (text.new.items ≡ text.old.items ++ joined (row_line (components table.now) (leaf, count) ∷ [])) }
{
    text.extend_from_slice(table.name(LeafNo::new(u32::from(leaf))).as_bytes())?;
    text.extend_from_slice(b" ")?;
    push_number(text, u64::from(count))?;
    text.extend_from_slice(b"\n")
}

// Puts the lines of turns, of which the first is of this leaf and the others are these.
fn push_rows_from(
    text: &mut Vec<u8>,
    table: &NodeTable,
    first: u8,
    rest: &[u8],
) -> Result<(), AllocError>
    requires first { first < length (components table.now) }
    requires rest { All (λ x. x < length (components table.now)) rest.now }
    ensures { OnOk result (text.new.items ≡ text.old.items
        ++ joined (map (row_line (components table.now)) (rows_of (past_of (first ∷ rest.now))))) }
{
    let mut leaf = first;
    let mut count = 1;
    for turn in rest {
        if leaf == *turn && count < GREATEST_ROW {
            count += 1;
        } else {
            push_row(text, table, leaf, count)?;
            leaf = *turn;
            count = 1;
        }
    }
    push_row(text, table, leaf, count)
}

// Puts the lines of these turns.
fn push_rows(text: &mut Vec<u8>, table: &NodeTable, turns: &[u8]) -> Result<(), AllocError>
    requires { All (λ x. x < length (components table.now)) turns.now }
    ensures { OnOk result (text.new.items ≡ text.old.items ++ joined (map (row_line (components table.now)) (rows_of (past_of turns.now)))) }
{
    if turns.is_empty() {
        return Ok(());
    }
    push_rows_from(text, table, turns[0], &turns[1..])
}

// Puts the comment that there are more turns than a list may have, if there are.
fn push_many(text: &mut Vec<u8>, count: usize) -> Result<(), AllocError>
    ensures { OnOk result (text.new.items ≡ text.old.items ++ joined (many_lines count)) }
{
    if count <= GREATEST_TURNS as usize {
        return Ok(());
    }
    text.extend_from_slice(b"# ")?;
    push_number(text, count as u64)?;
    text.extend_from_slice(b" turns, more than a list may have\n")
}

/// Turns, with a line for each unbroken row of turns of one leaf. A row of more than 9,999,999 turns has several lines. If there are more turns than a list of
/// turns may have, the first line is a comment that says so.
pub(crate) fn turns_text(
    alloc: Global,
    table: &NodeTable,
    turns: &[u8],
) -> Result<Vec<u8>, AllocError>
    requires { All (λ x. x < length (components table.now)) turns.now }
    ensures { IfOk result (λ t. t.items ≡ joined (many_lines (length turns.now) ++ map (row_line (components table.now)) (rows_of (past_of turns.now)))) }
{
    let mut text = Vec::new(alloc);
    push_many(&mut text, turns.len())?;
    push_rows(&mut text, table, turns)?;
    Ok(text)
}
