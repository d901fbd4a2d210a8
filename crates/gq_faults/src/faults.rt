// All that is wrong with a scenario, with its place in the file.
ghost use Rattle.std.specs.Prelude.{◌≡◌, ◌∷◌, [], Ok, map};
ghost use Rattle.toml.specs.View.{table_view};
ghost use Rattle.gq_scenario.specs.Top_table.{document_in, scenario_in};
ghost use Rattle.gq_scenario.specs.Fault_words.{scenario_fault_text};
ghost use Rattle.gq_load.specs.Load.{fault_text};
ghost use Rattle.gq_faults.specs.Answered.{ReportsText};
ghost use Rattle.gq_faults.specs.Documents.{document_faults};
ghost use Rattle.gq_faults.specs.Scenario_faults.{scenario_faults};
ghost use Rattle.gq_faults.specs.Reported_faults.{Reports, ReportsOf};

use crate::byte_columns::position_in;
use crate::document_faults::report_document;
use crate::fault_lines::{Reporter, push_line, put_fault};
use crate::report_error::ReportError;
use crate::stages::scenario_faults;
use crate::value_words::Details;
use gq_load::checked::scenario_lines;
use gq_load::load_fault::{LoadError, LoadFault};
use gq_model::limits::GREATEST_SCENARIO;
use gq_output::counted::Counted;
use gq_reader::document::read_document;
use gq_reader::first_fault_walk::walk_fault;
use gq_reader::reader::read_scenario;
use gq_scenario::scenario::Scenario;
use gq_scenario::scenario_fault::{ScenarioError, ScenarioFault};
use gq_toml_places::{Position, SourceMap, not_toml};
use std::alloc::{AllocError, Global};
use std::io::Write;
use toml::Table;

/// A file of a scenario or of turns: its path, as it was given, and its text.
#[derive(Clone, Copy)]
pub struct File<'f> {
    pub path: &'f str,
    pub text: &'f [u8],
}

// The place at which a text of letters stops being TOML; why it does is put at the end of details.
fn stop_in(alloc: Global, text: &str, details: &mut Details) -> Result<Position, AllocError> {
    let Some(stop) = not_toml(alloc, text)? else {
        return Ok(Position { line: 1, column: 1 });
    };
    let places = SourceMap::read(alloc, text)?;
    let position = places.position(stop.at);
    push_line(details, places.line(position.line))?;
    details.line(stop.error.message())?;
    Ok(position)
}

// The place at which a text stops being a document.
fn stop_of(alloc: Global, text: &[u8], details: &mut Details) -> Result<Position, AllocError> {
    if text.len() > GREATEST_SCENARIO {
        details.more_than(text.len() as u64, "bytes", GREATEST_SCENARIO as u64)?;
        return Ok(position_in(text, GREATEST_SCENARIO));
    }
    match str::from_utf8(text) {
        Ok(text) => stop_in(alloc, text, details),
        Err(error) => {
            details.line("this is no UTF-8")?;
            Ok(position_in(text, error.valid_up_to()))
        }
    }
}

// Writes that a text is no document: where it stops being one, and what it stops with.
fn report_stop<W: Write>(
    alloc: Global,
    file: File<'_>,
    fault: &ScenarioFault,
    out: &mut Counted<W>,
) -> Result<(), ReportError>
    ensures { Reports W.contents file.entry.path.now (scenario_fault_text fault.now ∷ []) out.old out.new result }
{
    let mut details = Details::new(alloc);
    let position = stop_of(alloc, file.text, &mut details)?;
    let line = format!(in alloc; "{fault}")?;
    put_fault(alloc, file.path, position, line.as_str(), &details, out)
}

// Writes the faults of a document, which is that of a text.
fn report_tables<W: Write>(
    alloc: Global,
    file: File<'_>,
    top: &Table,
    out: &mut Counted<W>,
) -> Result<(), ReportError>
    ensures { ReportsOf W.contents file.entry.path.now (document_faults (table_view top.now)) out.old out.new result }
{
    let text = str::from_utf8(file.text).unwrap_or("");
    let reporter = Reporter::new(alloc, file.path, text)?;
    report_document(&reporter, out, top)
}

// Writes the faults of a scenario, which is that of a text.
fn report_scenario<W: Write>(
    alloc: Global,
    file: File<'_>,
    scenario: &Scenario,
    out: &mut Counted<W>,
) -> Result<(), ReportError>
    ensures { Reports W.contents file.entry.path.now (map fault_text (scenario_faults scenario.now)) out.old out.new result }
{
    let found = scenario_faults(alloc, scenario)?;
    let text = str::from_utf8(file.text).unwrap_or("");
    let reporter = Reporter::new(alloc, file.path, text)?;
    reporter.report_each(out, found.as_slice())
}

// Writes the faults of a scenario, which is that of a text, and answers why it is refused, if it is. It is judged as `check` does it; where it is accepted,
// nothing more is done.
fn faults_of_scenario<W: Write>(
    alloc: Global,
    file: File<'_>,
    scenario: &Scenario,
    out: &mut Counted<W>,
) -> Result<Option<LoadFault>, ReportError>
    requires { scenario_in file.text.now ≡ Ok scenario.now }
    ensures { ReportsText W.contents file.entry.path.now file.entry.text.now out.old out.new result }
{
    match scenario_lines(alloc, scenario) {
        Ok(lines) => {
            drop(lines);
            Ok(None)
        }
        Err(LoadError::Memory) => Err(ReportError::Memory),
        Err(LoadError::Fault(fault)) => {
            report_scenario(alloc, file, scenario, out)?;
            Ok(Some(fault))
        }
    }
}

// Writes the faults of a document, which is that of a text and whose tables have none, or of the scenario that it describes; and answers why it is refused, if
// it is. The document goes before the scenario is judged.
fn faults_of_described<W: Write>(
    alloc: Global,
    file: File<'_>,
    top: Table,
    out: &mut Counted<W>,
) -> Result<Option<LoadFault>, ReportError>
    requires { document_in file.text.now ≡ Ok (table_view top) }
    ensures { ReportsText W.contents file.entry.path.now file.entry.text.now out.old out.new result }
{
    match read_scenario(alloc, file.text) {
        Ok(scenario) => {
            drop(top);
            faults_of_scenario(alloc, file, &scenario, out)
        }
        Err(ScenarioError::Memory(_)) => Err(ReportError::Memory),
        Err(ScenarioError::Fault(fault)) => {
            report_tables(alloc, file, &top, out)?;
            Ok(Some(LoadFault::Scenario(fault)))
        }
    }
}

// Writes the faults of a document, which is that of a text, or of the scenario that it describes; and answers why it is refused, if it is. Where its tables
// have faults the text is not read again, since a document of tables alone takes much host memory.
fn faults_of_document<W: Write>(
    alloc: Global,
    file: File<'_>,
    top: Table,
    out: &mut Counted<W>,
) -> Result<Option<LoadFault>, ReportError>
    requires { document_in file.text.now ≡ Ok (table_view top) }
    ensures { ReportsText W.contents file.entry.path.now file.entry.text.now out.old out.new result }
{
    match walk_fault(&top) {
        Some(fault) => {
            report_tables(alloc, file, &top, out)?;
            Ok(Some(LoadFault::Scenario(fault)))
        }
        None => faults_of_described(alloc, file, top, out),
    }
}

/// Writes all that is wrong with a scenario and can be reported at once, each fault as `PATH:LINE:COLUMN: FAULT` with its details below it: the faults of the
/// first stage that has any. The stages are: that the text is no document. All faults of its tables, counts and names. The first of each program's text or
/// code. The rule that each program breaks first. All of quanta, offers, leaves that start after others, routes and cycles. All of budgets. Answers why the
/// scenario is refused, if it is: the fault that `check` prints, which is the first of these (`laws`). Nothing is written where it is accepted. Ends early
/// where host memory is refused or a write fails; then a prefix of the text was written.
pub fn faults<W: Write>(
    alloc: Global,
    file: File<'_>,
    out: &mut Counted<W>,
) -> Result<Option<LoadFault>, ReportError>
    ensures { ReportsText W.contents file.entry.path.now file.entry.text.now out.old out.new result }
{
    match read_document(alloc, file.text) {
        Ok(top) => faults_of_document(alloc, file, top, out),
        Err(ScenarioError::Memory(_)) => Err(ReportError::Memory),
        Err(ScenarioError::Fault(fault)) => {
            report_stop(alloc, file, &fault, out)?;
            Ok(Some(LoadFault::Scenario(fault)))
        }
    }
}
