// Lines outside sections.
ghost use Rattle.std.specs.Prelude.{◌≡◌, is_some};
ghost use Rattle.gq_model.specs.machine.Program.{section_in};
ghost use Rattle.gq_model.specs.machine.Sections.{row};
ghost use Rattle.gq_model.specs.texts.Letters.{words};
ghost use Rattle.gq_model.specs.texts.Text.{limit_of, heading, headed, local, outside};
ghost use Rattle.gq_asm.specs.internal.Assembly_state.{AnswersBy, reading_of};

use crate::asm_fault::LineError;
use crate::assembly_state::{BlockKind, Reading};
use crate::line_operands::{at_end, next_number};
use gq_model::fault::TextFault;
use gq_model::section::{Section, SectionKind, same_section};
use gq_model::spelling::same_text;
use gq_program::Body;
use std::alloc::Global;

/// The limit of a local, if it was given.
pub fn limit_of(limits: &[(u8, u32)], local: u8) -> Option<u32>
    ensures { result ≡ limit_of local limits.now }
{
    for (given, limit) in limits {
        if *given == local {
            return Some(*limit);
        }
    }
    None
}

/// Whether a section was given.
fn is_given(sections: &[(Section, Body)], section: Section) -> bool
    ensures { result ≡ is_some (section_in section sections.now) }
{
    for (given, _) in sections {
        if same_section(section, *given) {
            return true;
        }
    }
    false
}

impl Reading {
    /// `local`: the greatest value of a local.
    fn local(&mut self, after: &[u8]) -> Result<(), LineError>
        ensures { AnswersBy (λ _. reading_of self.new) result (local (reading_of self.old) (words after.now)) }
    {
        let (local, rest) = next_number(after, 0, 7)?;
        if limit_of(&self.limits, local as u8).is_some() {
            return Err(LineError::Fault(TextFault::SectionTwice));
        }
        let (limit, rest) = next_number(rest, 0, u32::MAX)?;
        at_end(rest)?;
        self.limits.insert(0, (local as u8, limit))?;
        Ok(())
    }

    /// The heading of a section.
    fn heading(
        &mut self,
        alloc: Global,
        line: u64,
        section: Section,
        after: &[u8],
    ) -> Result<(), LineError>
        ensures { AnswersBy (λ _. reading_of self.new) result (heading (reading_of self.old) line section (words after.now)) }
    {
        if is_given(&self.sections, section) {
            return Err(LineError::Fault(TextFault::SectionTwice));
        }
        at_end(after)?;
        self.open(alloc, BlockKind::Section(section), line)
    }

    /// The heading of a section of this kind, whose level stands behind its word, where it has levels.
    fn headed(
        &mut self,
        alloc: Global,
        line: u64,
        kind: SectionKind,
        after: &[u8],
    ) -> Result<(), LineError>
        ensures { AnswersBy (λ _. reading_of self.new) result (headed (reading_of self.old) line kind (row kind).levels (words after.now)) }
    {
        let Some((least, greatest)) = kind.levels() else {
            return self.heading(alloc, line, kind.section(0), after);
        };
        let (level, rest) = next_number(after, u32::from(least), u32::from(greatest))?;
        self.heading(alloc, line, kind.section(level as u8), rest)
    }

    /// A line outside sections: its first word, and what follows that.
    pub fn outside(
        &mut self,
        alloc: Global,
        line: u64,
        word: &[u8],
        after: &[u8],
    ) -> Result<(), LineError>
        ensures { AnswersBy (λ _. reading_of self.new) result (outside (reading_of self.old) line word.now (words after.now)) }
    {
        if same_text(word, b"local") {
            return self.local(after);
        }
        if let Some(kind) = SectionKind::of_word(word) {
            return self.headed(alloc, line, kind, after);
        }
        if same_text(word, b"end") || same_text(word, b"else") {
            return Err(LineError::Fault(TextFault::StrayEnd));
        }
        Err(LineError::Fault(TextFault::UnknownWord))
    }
}
