// Which sections a program has.
ghost use Rattle.std.specs.Prelude.{◌≡◌, is_some};
ghost use Rattle.gq_model.specs.machine.Scenario.{Component};
ghost use Rattle.gq_bytecode.specs.Programs.{IsCodeOfProgram, code_in};
ghost use Rattle.gq_statements.specs.Serving.{AreSections};

use gq_bytecode::Code;
use gq_model::section::Section;

// Whether there is code of a section.
fn has(code: &Code, section: Section) -> bool
    ensures { result ≡ is_some (code_in section code.now.sections) }
{
    code.section(section).is_some()
}

/// Which sections the program of this code has, each at its place in `Section::ALL`.
pub fn sections_of(code: &Code) -> [bool; Section::ALL.len()]
    ensures { (c : Component) → IsCodeOfProgram code.now c.node.program.sections → AreSections result c }
{
    let mut there = [false; Section::ALL.len()];
    for number in 0..Section::ALL.len() {
        there[number] = has(code, Section::ALL[number]);
    }
    there
}
