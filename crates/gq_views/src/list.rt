// The program of a leaf, reported.
ghost use Rattle.std.specs.Prelude.{◌≡◌, Ok, Err, IfOk, IfErr, None, OnOk};
ghost use Rattle.gq_load.specs.Load_faults.{PrintsFault};
ghost use Rattle.gq_load.specs.Load.{source_fault};
ghost use Rattle.gq_views.specs.Views_written.{list_from, list_written, shown};
ghost use Rattle.gq_reports.specs.Command_outcomes.{IsBefore, IsFaultOf, WritesAs};

use crate::listing::listing;
use crate::margin::Margin;
use crate::numbered_listing::numbered_listing;
use gq_load::leaf_programs::read_program;
use gq_load::load_fault::{LoadError, LoadFault};
use gq_load::named::leaf_named;
use gq_output::counted::Counted;
use gq_program::program_tree::Program;
use gq_reader::reader::read_scenario;
use gq_reports::RunFault;
use gq_reports::command_text::put_text;
use gq_resolve::component::components;
use gq_scenario::scenario::{Leaf, Scenario};
use gq_scenario::scenario_fault::ScenarioError;
use std::alloc::{AllocError, Global};
use std::io::Write;

// A program as text.
fn shown(alloc: Global, program: &Program, margin: Margin) -> Result<Vec<u8>, AllocError>
    ensures { IfOk result (λ text. text.items ≡ shown margin program.now) }
{
    match margin {
        Margin::Plain => listing(alloc, program),
        Margin::Numbered => numbered_listing(alloc, program),
    }
}

// The text of a leaf's program.
fn leaf_text(alloc: Global, leaf: &Leaf, margin: Margin) -> Result<Vec<u8>, LoadError>
    ensures text { IfOk result (λ text. text.items ≡ shown margin leaf.now.program) }
    ensures faultless { IfOk result (λ text. source_fault leaf.now.name leaf.now.source ≡ None) }
    ensures refused { IfErr result (λ e. PrintsFault e (source_fault leaf.now.name leaf.now.source)) }
{
    let program = read_program(alloc, leaf)?;
    let text = shown(alloc, &program, margin);
    drop(program);
    Ok(text?)
}

// The text of the program of the leaf of this name.
fn named_text<'a>(
    alloc: Global,
    scenario: &Scenario,
    name: &'a str,
    margin: Margin,
) -> Result<Vec<u8>, RunFault<'a>>
    ensures text { IfOk result (λ text. list_from margin (Ok scenario.now) name.now ≡ Ok text.items) }
    ensures refused { IfErr result (λ f. IsFaultOf f (list_from margin (Ok scenario.now) name.now)) }
    ensures before { IfErr result (λ f. IsBefore f) }
{
    let components = components(alloc, scenario)?;
    let named = leaf_named(components.as_slice(), name.as_bytes());
    drop(components);
    let Some(leaf) = named else {
        return Err(RunFault::NoComponent(name));
    };
    Ok(leaf_text(alloc, leaf, margin)?)
}

/// Writes the program of the leaf of this name as text: its locals that are reported, then its sections, a statement a line, with numbers if the margin has
/// them.
/// No other leaf's program is read. Nothing is written where the scenario is refused, where no leaf has the name, where that leaf's text or code is no program,
/// or where the host refuses memory. After a failed write a prefix of the text was written.
pub fn list<'a, W: Write>(
    alloc: Global,
    scenario: &[u8],
    name: &'a str,
    margin: Margin,
    out: &mut Counted<W>,
) -> Result<(), RunFault<'a>>
    ensures { WritesAs W.contents (list_written margin scenario.now name.now) out.old out.new result }
{
    let scenario = match read_scenario(alloc, scenario) {
        Ok(scenario) => scenario,
        Err(ScenarioError::Memory(_)) => return Err(RunFault::Memory),
        Err(ScenarioError::Fault(fault)) => return Err(RunFault::Load(LoadFault::Scenario(fault))),
    };
    let text = named_text(alloc, &scenario, name, margin);
    drop(scenario);
    let text = text?;
    put_text(out, text.as_slice())
}
