// All lines of a text of turns that are wrong.
ghost use Rattle.std.specs.Prelude.{◌≡◌, ◌+◌, ◌^◌, ◌<◌, ◌≤◌, ◌∷◌, ◌++◌, [], length, map, option_map, unwrap_or, IfOk, IfSome, Some};
ghost use Rattle.gq_model.specs.texts.Letters.{lines};
ghost use Rattle.gq_model.specs.texts.Turns.{line_turns};
ghost use Rattle.gq_model.specs.machine.Rest.{greatest_turns};
ghost use Rattle.gq_scenario.specs.Text_pieces.{length_left};
ghost use Rattle.gq_load.specs.Load.{loaded};
ghost use Rattle.gq_faults.specs.Found_lists.{first, listed_if};
ghost use Rattle.gq_faults.specs.Reported_faults.{Reports};
ghost use Rattle.gq_faults.specs.Turn_faults.{Answers, faults_left, line_faults, lines_of_both, reported_fault, reported_of};
ghost use Rattle.gq_faults.specs.Turn_faults.{turn_fault_line, turn_faults, turns_after};

use crate::fault_lines::put_fault;
use crate::faults::{File, faults};
use crate::report_error::ReportError;
use crate::turn_details::{turn_details, wrong_at};
use crate::value_words::Details;
use gq_init::line_turns;
use gq_init::name_index::NameIndex;
use gq_init::turns::next_turn;
use gq_load::accepted::Accepted;
use gq_load::load_fault::{LoadError, LoadFault};
use gq_model::act::TurnLine;
use gq_model::fault::TurnFault;
use gq_model::limits::GREATEST_TURNS_TEXT;
use gq_output::counted::Counted;
use gq_resolve::NodeTable;
use gq_scenario::text_pieces::next_line;
use gq_toml_places::Position;
use std::alloc::Global;
use std::io::Write;

/// A line that is wrong, numbered from 1.
#[derive(Clone, Copy)]
pub(crate) struct WrongLine<'t> {
    pub fault: TurnFault,
    pub line: u64,
    pub text: &'t [u8],
    /// How many turns the lines before it and it itself are.
    pub total: u64,
}

// The fault that is reported of a line that says this after so many turns: that there are too many is reported once.
fn reported_fault(
    said: &Result<Option<TurnLine>, TurnFault>,
    before: Option<u32>,
) -> Option<TurnFault>
    ensures { result ≡ reported_fault said.now before }
{
    match said {
        Ok(_) => None,
        Err(TurnFault::TooMany) if before.is_none() => None,
        Err(fault) => Some(*fault),
    }
}

// How many turns there are after a line that says this; `None` once there were too many.
fn turns_after(said: &Result<Option<TurnLine>, TurnFault>, before: Option<u32>) -> Option<u32>
    requires few { unwrap_or before 0 ≤ greatest_turns }
    requires fits { IfOk said.now (λ turn. IfSome turn (λ t. unwrap_or before 0 + line_turns t ≤ greatest_turns)) }
    ensures turns { result ≡ turns_after said.now before }
    ensures few { unwrap_or result 0 ≤ greatest_turns }
{
    match said {
        Ok(None) => before,
        Ok(Some(turn)) => match before {
            Some(total) => Some(total + line_turns(*turn)),
            None => None,
        },
        Err(TurnFault::TooMany) => None,
        Err(_) => before,
    }
}

// The number at the end of a line.
fn count_of(line: &[u8]) -> u64 {
    let mut number = 0_u64;
    for byte in line {
        number = match *byte {
            digit @ b'0'..=b'9' => number
                .saturating_mul(10)
                .saturating_add(u64::from(digit - b'0')),
            _ => 0,
        };
    }
    number
}

// The first line of a text, which has this number and is wrong, after so many turns.
fn wrong_line<'t>(fault: TurnFault, line: u64, text: &'t [u8], before: u32) -> WrongLine<'t>
    ensures fault { result.fault ≡ fault }
    ensures line { result.line ≡ line }
{
    let (text, _) = next_line(text);
    WrongLine {
        fault,
        line,
        text,
        total: u64::from(before).saturating_add(count_of(text)),
    }
}

// A walk over the lines of a text.
#[derive(Clone, Copy, Drop)]
struct TurnLines<'t> {
    left: Option<&'t [u8]>,
    /// How many lines were read.
    line: u64,
    /// How many turns these are; `None` once there were too many.
    total: Option<u32>,
}

impl<'t> TurnLines<'t> {
    // Reads the next line, with which the text that is left begins, and returns whether it is wrong.
    fn read(
        &mut self,
        text: &'t [u8],
        table: &NodeTable,
        names: &NameIndex,
    ) -> Option<WrongLine<'t>>
        requires few { unwrap_or self.old.total 0 ≤ greatest_turns }
        requires numbered { self.old.line + 1 < 2 ^ 64 }
        ensures faults { faults_left table.now self.old.line self.old.total (Some text.now)
            ≡ listed_if (option_map (λ wrong. (wrong.fault, wrong.line)) result)
            ++ faults_left table.now self.new.line self.new.total (option_map (λ rest. rest.now) self.new.left) }
        ensures few { unwrap_or self.new.total 0 ≤ greatest_turns }
        ensures numbered { self.new.line ≡ self.old.line + 1 }
        ensures shorter { length_left (option_map (λ rest. rest.now) self.new.left) ≤ length text.now }
    {
        let before = self.total;
        let (said, after) = next_turn(text, before.unwrap_or(0), table, names);
        self.left = after;
        self.line += 1;
        self.total = turns_after(&said, before);
        let fault = reported_fault(&said, before)?;
        Some(wrong_line(fault, self.line, text, before.unwrap_or(0)))
    }
}

/// Why a scenario and turns are refused.
#[derive(Drop)]
pub enum Refused {
    /// The scenario is.
    Scenario(LoadFault),
    /// The turns are, by their first line that is wrong; 0 where the text is too long.
    Turns { fault: TurnFault, line: u64 },
}

// Writes a fault of turns.
fn put_turn_fault<W: Write>(
    alloc: Global,
    path: &str,
    fault: TurnFault,
    line: u64,
    column: usize,
    details: &Details,
    out: &mut Counted<W>,
) -> Result<(), ReportError>
    ensures { Reports W.contents path.now (turn_fault_line (fault, line) ∷ []) out.old out.new result }
{
    let said = format!(in alloc; "{fault} line {line}")?;
    let position = Position {
        line: line.max(1) as usize,
        column,
    };
    put_fault(alloc, path, position, said.as_str(), details, out)
}

// Writes a line that is wrong.
fn report_wrong<W: Write>(
    alloc: Global,
    path: &str,
    table: &NodeTable,
    wrong: &WrongLine<'_>,
    out: &mut Counted<W>,
) -> Result<(), ReportError>
    ensures { Reports W.contents path.now (turn_fault_line (wrong.now.fault, wrong.now.line) ∷ []) out.old out.new result }
{
    let details = turn_details(alloc, table, wrong)?;
    let column = wrong_at(wrong).saturating_add(1);
    put_turn_fault(alloc, path, wrong.fault, wrong.line, column, &details, out)
}

// Writes that a text of turns is too long.
fn report_too_long<W: Write>(
    alloc: Global,
    file: File<'_>,
    out: &mut Counted<W>,
) -> Result<(), ReportError>
    ensures { Reports W.contents file.entry.path.now (turn_fault_line (TurnFault.TooMany, 0) ∷ []) out.old out.new result }
{
    let mut details = Details::new(alloc);
    details.more_than(file.text.len() as u64, "bytes", GREATEST_TURNS_TEXT as u64)?;
    put_turn_fault(alloc, file.path, TurnFault::TooMany, 0, 1, &details, out)
}

// Writes all lines of a text of turns that are wrong, and answers the first.
fn report_lines<W: Write>(
    alloc: Global,
    file: File<'_>,
    table: &NodeTable,
    out: &mut Counted<W>,
) -> Result<Option<(TurnFault, u64)>, ReportError>
    requires { length file.text.now ≤ 2 ^ 24 }
    ensures reported { Reports W.contents file.entry.path.now (map turn_fault_line (line_faults table.now 1 (Some 0) (lines file.entry.text.now)))
        out.old out.new result }
    ensures first { IfOk result (λ answer. answer ≡ first (line_faults table.now 1 (Some 0) (lines file.entry.text.now))) }
{
    let names = NameIndex::of(table);
    let mut reading = TurnLines {
        left: Some(file.text),
        line: 0,
        total: Some(0),
    };
    let mut first: Option<(TurnFault, u64)> = None;
    while let Some(text) = reading.left {
        if let Some(wrong) = reading.read(text, table, &names) {
            report_wrong(alloc, file.path, table, &wrong, out)?;
            first = first.or(Some((wrong.fault, wrong.line)));
        }
    }
    Ok(first)
}

// Writes all faults of a text of turns, and answers the first.
fn report_turns<W: Write>(
    alloc: Global,
    file: File<'_>,
    table: &NodeTable,
    out: &mut Counted<W>,
) -> Result<Option<(TurnFault, u64)>, ReportError>
    ensures reported { Reports W.contents file.entry.path.now (map turn_fault_line (turn_faults table.now file.entry.text.now)) out.old out.new result }
    ensures first { IfOk result (λ answer. answer ≡ first (turn_faults table.now file.entry.text.now)) }
{
    if file.text.len() > GREATEST_TURNS_TEXT {
        report_too_long(alloc, file, out)?;
        return Ok(Some((TurnFault::TooMany, 0)));
    }
    report_lines(alloc, file, table, out)
}

/// Writes all that is wrong with a scenario, as `faults` does. If it is accepted, writes all that is wrong with a text of turns:
///
/// - The text is too long.
/// - A line has another form, or a name that is no leaf's.
/// - A setting is of an input that the leaf has not, or has a value above the greatest; a signal is one that the leaf has not.
/// - There are too many turns; this is reported at the first line at which there are.
///
/// The first of these is the one that `run` prints (`laws`). Returns why `run` refuses both, if it does. Ends early if the host refuses memory or a write
/// fails; then a prefix of the text was written.
pub fn faults_of_both<W: Write>(
    alloc: Global,
    scenario: File<'_>,
    turns: File<'_>,
    out: &mut Counted<W>,
) -> Result<Option<Refused>, ReportError>
    ensures reported { Reports W.contents (reported_of (loaded scenario.entry.text.now) scenario.entry.path.now turns.entry.path.now)
        (lines_of_both scenario.entry.text.now turns.entry.text.now) out.old out.new result }
    ensures answer { IfOk result (λ answer. Answers answer (loaded scenario.entry.text.now) turns.entry.text.now) }
{
    if let Some(fault) = faults(alloc, scenario, out)? {
        return Ok(Some(Refused::Scenario(fault)));
    }
    let accepted = match Accepted::read(alloc, scenario.text) {
        Ok(accepted) => accepted,
        Err(LoadError::Memory) => return Err(ReportError::Memory),
        Err(LoadError::Fault(_)) => unreachable!(),
    };
    match report_turns(alloc, turns, accepted.table(), out)? {
        Some((fault, line)) => Ok(Some(Refused::Turns { fault, line })),
        None => Ok(None),
    }
}
