// The code of a leaf's program.
ghost use Rattle.std.specs.Prelude.{◌≡◌, ◌∷◌, ◌++◌, [], Ok, Err, IfOk, IfErr, None, string_bytes};
ghost use Rattle.gq_model.specs.texts.Code.{code_of, hex_of};
ghost use Rattle.gq_load.specs.Load_faults.{PrintsFault};
ghost use Rattle.gq_load.specs.Load.{source_fault};
ghost use Rattle.gq_reports.specs.Command_outcomes.{IsBefore, IsFaultOf, WritesAs};
ghost use Rattle.gq_reports.specs.Whole.{asm_from, asm_written};

use crate::command_text::put_text;
use crate::run_fault::RunFault;
use gq_code::program_code::encode;
use gq_load::leaf_programs::read_program;
use gq_load::load_fault::{LoadError, LoadFault};
use gq_load::named::leaf_named;
use gq_output::counted::Counted;
use gq_reader::reader::read_scenario;
use gq_resolve::component::components;
use gq_scenario::scenario::{Leaf, Scenario};
use gq_scenario::scenario_fault::ScenarioError;
use std::alloc::{AllocError, Global};
use std::io::Write;

// Bytes in hexadecimal digits, and a line feed.
fn hexadecimal_line(alloc: Global, bytes: &[u8]) -> Result<String, AllocError>
    ensures { IfOk result (λ line. string_bytes line ≡ hex_of bytes.now ++ 10 ∷ []) }
{
    let mut line = hex::encode(alloc, bytes)?;
    line.push_str("\n")?;
    Ok(line)
}

// The code of a leaf.
fn leaf_code(alloc: Global, leaf: &Leaf) -> Result<Vec<u8>, LoadError>
    ensures code { IfOk result (λ code. code.items ≡ code_of leaf.now.program) }
    ensures faultless { IfOk result (λ code. source_fault leaf.now.name leaf.now.source ≡ None) }
    ensures refused { IfErr result (λ e. PrintsFault e (source_fault leaf.now.name leaf.now.source)) }
{
    let program = read_program(alloc, leaf)?;
    let code = encode(alloc, &program);
    drop(program);
    Ok(code?)
}

// The line of the code of a leaf.
fn leaf_line<'a>(alloc: Global, scenario: &Scenario, name: &'a str) -> Result<String, RunFault<'a>>
    ensures line { IfOk result (λ line. asm_from (Ok scenario.now) name.now ≡ Ok (string_bytes line)) }
    ensures refused { IfErr result (λ f. IsFaultOf f (asm_from (Ok scenario.now) name.now)) }
    ensures before { IfErr result (λ f. IsBefore f) }
{
    let components = components(alloc, scenario)?;
    let named = leaf_named(components.as_slice(), name.as_bytes());
    drop(components);
    let Some(leaf) = named else {
        return Err(RunFault::NoComponent(name));
    };
    let code = leaf_code(alloc, leaf)?;
    Ok(hexadecimal_line(alloc, code.as_slice())?)
}

/// Writes the code of the leaf of this name, in lower-case hexadecimal digits, and a line feed. No other leaf's program is
/// read. Nothing is written where the scenario is refused, where no leaf has the name, where that leaf's text or code is no
/// program, or where the host refuses memory.
pub fn asm<'a, W: Write>(
    alloc: Global,
    scenario: &[u8],
    name: &'a str,
    out: &mut Counted<W>,
) -> Result<(), RunFault<'a>>
    ensures { WritesAs W.contents (asm_written scenario.now name.now) out.old out.new result }
{
    let scenario = match read_scenario(alloc, scenario) {
        Ok(scenario) => scenario,
        Err(ScenarioError::Memory(_)) => return Err(RunFault::Memory),
        Err(ScenarioError::Fault(fault)) => return Err(RunFault::Load(LoadFault::Scenario(fault))),
    };
    let line = leaf_line(alloc, &scenario, name);
    drop(scenario);
    let line = line?;
    put_text(out, line.as_bytes())
}
