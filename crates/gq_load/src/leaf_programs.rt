// The programs of a scenario's leaves.
ghost use Rattle.std.specs.Prelude.{◌≡◌, None, IfOk, IfErr, OnOk};
ghost use Rattle.gq_load.specs.Load_faults.{PrintsFault};
ghost use Rattle.gq_load.specs.internal.Judged_programs.{programs_of};
ghost use Rattle.gq_load.specs.Load.{source_fault, sources_fault};

use crate::load_fault::{LoadError, LoadFault};
use gq_asm::{AssembleError, assemble_with};
use gq_code::decode::{DecodeError, decode};
use gq_program::program_tree::Program;
use gq_program::spare::Spare;
use gq_resolve::component::Component;
use gq_scenario::scenario::Leaf;
use gq_scenario::source::Source;
use std::alloc::Global;

/// The program of a leaf, from its text or its code.
///
/// Fails if the host refuses memory, and where the text or the code is no program: then the fault names the leaf.
pub fn read_program(alloc: Global, leaf: &Leaf) -> Result<Program, LoadError>
    ensures program { IfOk result (λ p. p ≡ leaf.now.program) }
    ensures faultless { IfOk result (λ p. source_fault leaf.now.name leaf.now.source ≡ None) }
    ensures refused { IfErr result (λ e. PrintsFault e (source_fault leaf.now.name leaf.now.source)) }
{
    read_program_with(alloc, &mut Spare::new(alloc), leaf)
}

// The same, in lists of statements that are spare as far as there are some.
pub(crate) fn read_program_with(
    alloc: Global,
    spare: &mut Spare,
    leaf: &Leaf,
) -> Result<Program, LoadError>
    ensures program { IfOk result (λ p. p ≡ leaf.now.program) }
    ensures faultless { IfOk result (λ p. source_fault leaf.now.name leaf.now.source ≡ None) }
    ensures refused { IfErr result (λ e. PrintsFault e (source_fault leaf.now.name leaf.now.source)) }
{
    match leaf.source() {
        Source::Text(text) => match assemble_with(alloc, spare, text.as_slice()) {
            Ok(program) => Ok(program),
            Err(AssembleError::Memory(_)) => Err(LoadError::Memory),
            Err(AssembleError::Fault { fault, line }) => Err(LoadError::Fault(LoadFault::Text {
                leaf: leaf.name().copied(),
                fault,
                line,
            })),
        },
        Source::Code(code) => match decode(alloc, code.as_slice()) {
            Ok(program) => Ok(program),
            Err(DecodeError::Memory(_)) => Err(LoadError::Memory),
            Err(DecodeError::Fault(fault)) => Err(LoadError::Fault(LoadFault::Code {
                leaf: leaf.name().copied(),
                fault,
            })),
        },
    }
}

// The programs of these leaves, in their order.
pub(crate) fn read_programs(
    alloc: Global,
    components: &[Component<'_>],
) -> Result<Vec<Program>, LoadError>
    ensures programs { IfOk result (λ v. v.items ≡ programs_of components.now) }
    ensures faultless { IfOk result (λ v. sources_fault components.now ≡ None) }
    ensures refused { IfErr result (λ e. PrintsFault e (sources_fault components.now)) }
{
    let mut programs = Vec::new(alloc);
    for component in components {
        programs.push(read_program(alloc, component.leaf())?)?;
    }
    Ok(programs)
}

// Makes sure that the texts and codes of these leaves are programs; these are let go.
pub(crate) fn check_programs(alloc: Global, components: &[Component<'_>]) -> Result<(), LoadError>
    ensures none { OnOk result (sources_fault components.now ≡ None) }
    ensures refused { IfErr result (λ e. PrintsFault e (sources_fault components.now)) }
{
    for component in components {
        let _program = read_program(alloc, component.leaf())?;
    }
    Ok(())
}
