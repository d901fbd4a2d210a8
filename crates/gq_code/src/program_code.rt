// Whole programs as bytes.
ghost use Rattle.std.specs.Prelude.{◌≡◌, ◌≤◌, ◌<◌, ◌^◌, ◌++◌, OnOk, IfOk, IsTrue, length};
ghost use Rattle.gq_model.specs.texts.Code.{are_sections, section_bits, local_bits, limits_code, sections_code, code_of};
ghost use Rattle.gq_model.specs.machine.Sections.{is_section, section_number};
ghost use Rattle.gq_code.specs.internal.Coded_sections.{have_codes};

use crate::encode::{encode_body, write_number};
use gq_model::section::Section;
use gq_program::program_tree::{Body, Program};
use std::alloc::{AllocError, Global};

/// The number of a local without a limit.
pub(crate) const NO_LIMIT: u32 = u32::MAX;

/// The locals that have a limit, the first in the lowest bit.
fn local_bits(locals: &[u32]) -> u16
    requires { length locals.now ≤ 8 }
    ensures bits { result ≡ local_bits locals.now }
    ensures few { result < 2 ^ length locals.now }
{
    match locals {
        [] => 0,
        [first, rest @ ..] => u16::from(*first < NO_LIMIT) + 2 * local_bits(rest),
    }
}

/// Puts the limits of the locals that have one at the end.
fn write_limits(out: &mut Vec<u8>, locals: &[u32]) -> Result<(), AllocError>
    ensures { OnOk result (out.new.items ≡ out.old.items ++ limits_code locals.now) }
{
    for local in locals {
        if *local < NO_LIMIT {
            write_number(out, 4, u64::from(*local))?;
        }
    }
    Ok(())
}

/// The bit that says that a section is there.
fn section_bit(section: Section) -> u16
    requires { IsTrue (is_section section) }
    ensures { result ≡ 2 ^ section_number section }
{
    1 << section.number()
}

/// The bits of the sections that are there.
fn section_bits(sections: &[(Section, Body)]) -> u16
    requires { IsTrue (are_sections 0 sections.now) }
    ensures { result ≡ section_bits sections.now }
{
    let mut bits = 0;
    for (section, _) in sections {
        bits += section_bit(*section);
    }
    bits
}

/// Puts sections at the end, each after its length.
fn write_sections(
    alloc: Global,
    out: &mut Vec<u8>,
    sections: &[(Section, Body)],
) -> Result<(), AllocError>
    requires { IsTrue (have_codes sections.now) }
    ensures { OnOk result (out.new.items ≡ out.old.items ++ sections_code sections.now) }
{
    for (_, body) in sections {
        let code = encode_body(alloc, body)?;
        write_number(out, 4, code.len() as u64)?;
        out.extend_from_slice(code.as_slice())?;
    }
    Ok(())
}

/// The code of a program: the limits of its locals, which sections are there, and each section's statements. Refused only for
/// want of host memory.
pub fn encode(alloc: Global, program: &Program) -> Result<Vec<u8>, AllocError>
    ensures { IfOk result (λ code. code.items ≡ code_of program.now) }
{
    program.laws();
    let mut code = Vec::new(alloc);
    let locals = program.locals();
    let sections = program.sections();
    code.push(local_bits(locals) as u8)?;
    write_limits(&mut code, locals)?;
    write_number(&mut code, 2, u64::from(section_bits(sections)))?;
    write_sections(alloc, &mut code, sections)?;
    Ok(code)
}
