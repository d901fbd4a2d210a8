// All faults of a table by the rules of its keys.
ghost use Rattle.std.specs.Prelude.{◌∷◌, [], not, map};
ghost use Rattle.toml.specs.View.{table_view};
ghost use Rattle.gq_model.specs.machine.Lists.{any_of};
ghost use Rattle.gq_model.specs.machine.Program.{text_eq};
ghost use Rattle.gq_reader.specs.Key_rules.{rule_of};
ghost use Rattle.gq_scenario.specs.Table_keys.{UnknownKey};
ghost use Rattle.gq_scenario.specs.Fault_words.{scenario_fault_text};
ghost use Rattle.gq_faults.specs.Found_lists.{all_found, when};
ghost use Rattle.gq_faults.specs.Documents.{missing_of, bad_of, unknown_keys, table_faults};
ghost use Rattle.gq_faults.specs.Reported_faults.{Reports, ReportsOf};

use crate::fault_lines::Reporter;
use crate::fault_value::{Detail, FaultPart, TableKind};
use crate::path::with_step;
use crate::report_error::ReportError;
use gq_model::letters::is_name;
use gq_output::counted::Counted;
use gq_reader::rules::{KeyRule, ValueRule, fits, is_bad, is_missing, is_ruled};
use gq_reader::value::{has, value_at};
use gq_scenario::key::{Key, key_of};
use gq_scenario::scenario_fault::ScenarioFault;
use gq_toml_places::Step;
use std::alloc::{AllocError, Global};
use std::io::Write;
use toml::{Table, Value};

/// Writes a fault of a document.
pub(crate) fn report_fault<W: Write>(
    reporter: &Reporter<'_>,
    out: &mut Counted<W>,
    fault: ScenarioFault,
    way: &[Step<'_>],
    part: FaultPart,
    detail: &Detail<'_>,
) -> Result<(), ReportError>
    ensures { Reports W.contents reporter.now.path.now (scenario_fault_text fault ∷ []) out.old out.new result }
{
    let line = format!(in reporter.alloc(); "{fault}")?;
    reporter.report(out, line.as_str(), way, part, detail)
}

// Writes a fault at a key of a table, to which a way leads.
fn report_key<W: Write>(
    reporter: &Reporter<'_>,
    out: &mut Counted<W>,
    fault: ScenarioFault,
    way: &[Step<'_>],
    key: &str,
    detail: &Detail<'_>,
) -> Result<(), ReportError>
    ensures { Reports W.contents reporter.now.path.now (scenario_fault_text fault ∷ []) out.old out.new result }
{
    let way = with_step(reporter.alloc(), way, Step::Key(key))?;
    report_fault(reporter, out, fault, way.as_slice(), FaultPart::Key, detail)
}

// Reports a key for which there is no rule.
fn report_unknown<W: Write>(
    reporter: &Reporter<'_>,
    out: &mut Counted<W>,
    way: &[Step<'_>],
    kind: TableKind,
    rules: &[KeyRule<'_>],
    key: &str,
) -> Result<(), ReportError>
    ensures { ReportsOf W.contents reporter.now.path.now (when (not (any_of (λ r. text_eq key.now r.key) (map rule_of rules.now))) (UnknownKey key.now))
        out.old out.new result }
{
    if is_ruled(rules, key) {
        return Ok(());
    }
    let fault = ScenarioFault::UnknownKey(key_of(key));
    report_key(reporter, out, fault, way, key, &Detail::Unknown(kind, key))
}

// All unknown keys, in byte order.
fn report_unknown_keys<W: Write>(
    reporter: &Reporter<'_>,
    out: &mut Counted<W>,
    way: &[Step<'_>],
    kind: TableKind,
    rules: &[KeyRule<'_>],
    table: &Table,
) -> Result<(), ReportError>
    ensures { ReportsOf W.contents reporter.now.path.now (unknown_keys (map rule_of rules.now) (table_view table.now)) out.old out.new result }
{
    for (key, _) in table.iter() {
        report_unknown(reporter, out, way, kind, rules, key.as_str())?;
    }
    Ok(())
}

// Reports a required key that is missing.
fn report_missing<W: Write>(
    reporter: &Reporter<'_>,
    out: &mut Counted<W>,
    way: &[Step<'_>],
    kind: TableKind,
    rule: &KeyRule<'_>,
    table: &Table,
) -> Result<(), ReportError>
    ensures { ReportsOf W.contents reporter.now.path.now (missing_of (table_view table.now) (rule_of rule.now)) out.old out.new result }
{
    if !is_missing(rule, table) {
        return Ok(());
    }
    let fault = ScenarioFault::MissingKey(rule.key);
    let detail = Detail::Missing(kind, rule.key);
    report_fault(reporter, out, fault, way, FaultPart::Table, &detail)
}

// All required keys that are missing.
fn report_missing_keys<W: Write>(
    reporter: &Reporter<'_>,
    out: &mut Counted<W>,
    way: &[Step<'_>],
    kind: TableKind,
    rules: &[KeyRule<'_>],
    table: &Table,
) -> Result<(), ReportError>
    ensures { ReportsOf W.contents reporter.now.path.now (all_found (missing_of (table_view table.now)) (map rule_of rules.now)) out.old out.new result }
{
    for rule in rules {
        report_missing(reporter, out, way, kind, rule, table)?;
    }
    Ok(())
}

// Whether a value may be that of an entry of a table by names.
fn is_entry(rule: ValueRule<'_>, value: &Value) -> bool {
    match rule {
        ValueRule::NamedNames => fits(ValueRule::NameText, value),
        _ => value.is_table(),
    }
}

// The first entry of a table by names that has another key or another value.
fn bad_entry<'d>(rule: ValueRule<'_>, value: &'d Value) -> Option<(&'d str, &'d Value)> {
    match (rule, value.as_table()) {
        (ValueRule::NamedTables | ValueRule::NamedNames, Some(table)) => {
            for (key, value) in table.iter() {
                if !is_name(key.as_str().as_bytes()) || !is_entry(rule, value) {
                    return Some((key.as_str(), value));
                }
            }
            None
        }
        _ => None,
    }
}

// What is wrong with such an entry.
fn entry_detail<'d>(rule: ValueRule<'_>, name: &'d str, value: &'d Value) -> Detail<'d> {
    match (rule, is_name(name.as_bytes())) {
        (ValueRule::NamedNames, true) => Detail::Bad(value, ValueRule::NameText),
        (_, is_name) => Detail::BadEntry(name, is_name),
    }
}

// The first of these keys that is there.
fn first_of(table: &Table, keys: &[Key]) -> Option<Key> {
    for key in keys {
        if has(table, *key) {
            return Some(*key);
        }
    }
    None
}

// What is wrong with a key that is there, and the entry at which it is, where it is one.
fn bad_detail<'d>(rule: &KeyRule<'d>, table: &'d Table) -> (Option<&'d str>, Detail<'d>) {
    let Some(value) = value_at(table, rule.key) else {
        return (None, Detail::Nothing);
    };
    if let Some((name, entry)) = bad_entry(rule.value, value) {
        return (Some(name), entry_detail(rule.value, name, entry));
    }
    match first_of(table, rule.beside) {
        Some(beside) if fits(rule.value, value) => (None, Detail::Beside(rule.key, beside)),
        _ => (None, Detail::Bad(value, rule.value)),
    }
}

// The way to a key of a table, or to an entry of the table at it.
fn way_to<'d>(
    alloc: Global,
    way: &[Step<'d>],
    key: Key,
    entry: Option<&'d str>,
) -> Result<Vec<Step<'d>>, AllocError> {
    let at = with_step(alloc, way, Step::Key(key.word()))?;
    match entry {
        Some(name) => with_step(alloc, at.as_slice(), Step::Key(name)),
        None => Ok(at),
    }
}

// Reports a key with a bad value, or beside one with which it can not stand.
fn report_bad<W: Write>(
    reporter: &Reporter<'_>,
    out: &mut Counted<W>,
    way: &[Step<'_>],
    rule: &KeyRule<'_>,
    table: &Table,
) -> Result<(), ReportError>
    ensures { ReportsOf W.contents reporter.now.path.now (bad_of (table_view table.now) (rule_of rule.now)) out.old out.new result }
{
    if !is_bad(rule, table) {
        return Ok(());
    }
    let (entry, detail) = bad_detail(rule, table);
    let way = way_to(reporter.alloc(), way, rule.key, entry)?;
    let fault = ScenarioFault::BadValue(rule.key);
    report_fault(
        reporter,
        out,
        fault,
        way.as_slice(),
        FaultPart::Key,
        &detail,
    )
}

// All keys with bad values.
fn report_bad_values<W: Write>(
    reporter: &Reporter<'_>,
    out: &mut Counted<W>,
    way: &[Step<'_>],
    rules: &[KeyRule<'_>],
    table: &Table,
) -> Result<(), ReportError>
    ensures { ReportsOf W.contents reporter.now.path.now (all_found (bad_of (table_view table.now)) (map rule_of rules.now)) out.old out.new result }
{
    for rule in rules {
        report_bad(reporter, out, way, rule, table)?;
    }
    Ok(())
}

/// Reports all faults of a table with these rules, to which a way leads: all unknown keys, all that are missing, all bad values.
pub(crate) fn report_table<W: Write>(
    reporter: &Reporter<'_>,
    out: &mut Counted<W>,
    way: &[Step<'_>],
    kind: TableKind,
    rules: &[KeyRule<'_>],
    table: &Table,
) -> Result<(), ReportError>
    ensures { ReportsOf W.contents reporter.now.path.now (table_faults (map rule_of rules.now) (table_view table.now)) out.old out.new result }
{
    report_unknown_keys(reporter, out, way, kind, rules, table)?;
    report_missing_keys(reporter, out, way, kind, rules, table)?;
    report_bad_values(reporter, out, way, rules, table)
}
