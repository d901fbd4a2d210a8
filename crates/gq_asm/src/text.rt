// A text, line by line.
ghost use Rattle.std.specs.Prelude.{◌≡◌, ◌∷◌, [], IsTrue, Ok, IfOk, IfErr, MatchOption, option_copied};
ghost use Rattle.gq_model.specs.machine.Program as model;
ghost use Rattle.gq_model.specs.machine.Program.{section_in};
ghost use Rattle.gq_model.specs.texts.Code.{IsProgram};
ghost use Rattle.gq_model.specs.texts.Letters.{words};
ghost use Rattle.gq_model.specs.texts.Text.{limit_of, limit_or_greatest, limits_from, in_order, finished, line_read, is_comment, assembled};
ghost use Rattle.gq_asm.specs.internal.Assembly_state.{AnswersBy, reading_of};
ghost use Rattle.gq_asm.specs.Assembly_faults.{Assembles};
ghost use Rattle.gq_asm.specs.declared.asm_fault.LineError.TheVariants.{Memory};
ghost use Rattle.gq_asm.specs.internal.Source_lines.{IsTaking, ReadsUsual};
ghost use Rattle.gq_asm.specs.Pieces.{line_at, past_feed};
ghost use Rattle.gq_asm.specs.internal.Section_order.{without, IsFirstAt, IsAbsent, is_distinct};

use crate::asm_fault::{AssembleError, LineError};
use crate::assembly_state::Reading;
use crate::headings::limit_of;
use crate::line_words::next_word;
use crate::source_lines::first_line;
use crate::usual::usual_line;
use gq_model::fault::TextFault;
use gq_model::limits::{GREATEST_STATEMENTS, LOCALS};
use gq_model::section::{Section, same_section};
use gq_program::{Body, Program, Spare, Statement};
use std::alloc::{AllocError, Global};
use std::mem;

/// Whether the first word of a line begins a comment.
fn is_comment(word: &[u8]) -> bool
    ensures { result ≡ is_comment word.now }
{
    match word {
        [first, ..] => *first == b'#',
        [] => false,
    }
}

/// The greatest value of a local: its limit, or any.
fn greatest_value(limits: &[(u8, u32)], local: u8) -> u32
    ensures { result ≡ limit_or_greatest (limit_of local limits.now) }
{
    match limit_of(limits, local) {
        Some(limit) => limit,
        None => u32::MAX,
    }
}

/// The greatest values of the locals.
fn greatest_values(limits: &[(u8, u32)]) -> [u32; LOCALS]
    ensures { result ≡ limits_from limits.now (0 ∷ 1 ∷ 2 ∷ 3 ∷ 4 ∷ 5 ∷ 6 ∷ 7 ∷ []) }
{
    [
        greatest_value(limits, 0),
        greatest_value(limits, 1),
        greatest_value(limits, 2),
        greatest_value(limits, 3),
        greatest_value(limits, 4),
        greatest_value(limits, 5),
        greatest_value(limits, 6),
        greatest_value(limits, 7),
    ]
}

/// Where a section stands.
fn place_of(given: &[(Section, Body)], section: Section) -> Option<usize>
    ensures { MatchOption result (IsAbsent section given.now) (IsFirstAt section given.now) }
{
    for (i, (name, _)) in given.iter().enumerate() {
        if same_section(section, *name) {
            return Some(i);
        }
    }
    None
}

/// Takes a section out.
fn take_section(given: &mut Vec<(Section, Body)>, section: Section) -> Option<Body>
    ensures body { result ≡ section_in section given.old.items }
    ensures rest { given.new.items ≡ without section given.old.items }
{
    let place = place_of(given, section)?;
    let (_, body) = given.remove(place);
    Some(body)
}

/// The sections that are there, in this order.
fn in_order(
    alloc: Global,
    given: Vec<(Section, Body)>,
    order: &[Section],
) -> Result<Vec<(Section, Body)>, AllocError>
    requires { IsTrue (is_distinct order.now) }
    ensures { IfOk result (λ v. v.items ≡ in_order given.items order.now) }
{
    let mut given = given;
    let mut sections = Vec::new(alloc);
    for section in order {
        if let Some(body) = take_section(&mut given, *section) {
            sections.push((*section, body))?;
        }
    }
    Ok(sections)
}

impl Reading {
    /// Reads a line by its words. One without words and a comment say nothing.
    pub fn read_line(&mut self, alloc: Global, number: u64, line: &[u8]) -> Result<(), LineError>
        ensures { AnswersBy (λ _. reading_of self.new) result (line_read (reading_of self.old) number line.now (words line.now)) }
    {
        let Some((word, after)) = next_word(line) else {
            return Ok(());
        };
        if is_comment(word) {
            return Ok(());
        }
        if self.blocks.front().is_none() {
            return self.outside(alloc, number, word, after);
        }
        self.statement(alloc, number, word, after)
    }

    /// Whether a statement may come: a block is open, and fewer statements were read than there may be.
    #[inline(always)]
    fn takes_statements(&self) -> bool
        ensures { IsTrue result → IsTaking (reading_of self.now) }
    {
        self.blocks.front().is_some() && self.count < GREATEST_STATEMENTS
    }

    /// Reads the first line of a text by the way of usual lines, and answers what follows its line feed. Where it is none, nothing is read.
    #[inline(always)]
    fn read_usual<'a>(&mut self, text: &'a [u8]) -> Result<Option<&'a [u8]>, LineError>
        ensures read { IfOk result (λ rest. MatchOption rest (reading_of self.new ≡ reading_of self.old)
            (λ rest. ReadsUsual text.now rest.now (reading_of self.old) (reading_of self.new))) }
        ensures refused { IfErr result (λ e. e ≡ Memory) }
    {
        if !self.takes_statements() {
            return Ok(None);
        }
        let Some((instruction, rest)) = usual_line(text) else {
            return Ok(None);
        };
        self.count += 1;
        self.add(Statement::Plain(instruction))?;
        Ok(Some(rest))
    }

    /// Reads the first line of a text, and answers the text of the lines after it, if there are any.
    #[inline(always)]
    fn read_first<'a>(
        &mut self,
        alloc: Global,
        number: u64,
        text: &'a [u8],
    ) -> Result<Option<&'a [u8]>, LineError>
        ensures read { AnswersBy (λ _. reading_of self.new) result (line_read (reading_of self.old) number (line_at text.now) (words (line_at text.now))) }
        ensures rest { IfOk result (λ rest. option_copied rest ≡ past_feed text.now) }
    {
        if let Some(rest) = self.read_usual(text)? {
            return Ok(Some(rest));
        }
        let (line, rest) = first_line(text);
        self.read_line(alloc, number, line)?;
        Ok(rest)
    }

    /// The program at the end of the text, where every block is closed. The room that is left is handed back.
    fn finish(self, alloc: Global, spare: &mut Spare) -> Result<Program, AssembleError>
        requires { let r = reading_of self in (p : model.Program) → finished r r.blocks ≡ Ok p → IsProgram p }
        ensures { let r = reading_of self in Assembles result (finished r r.blocks) }
    {
        let Reading {
            limits,
            sections,
            count: _,
            mut blocks,
            spare: left,
        } = self;
        *spare = left;
        if let Some(block) = blocks.pop_front() {
            return Err(AssembleError::Fault {
                fault: TextFault::Unclosed,
                line: block.line,
            });
        }
        let locals = greatest_values(&limits);
        let sections = in_order(alloc, sections, &Section::ALL)?;
        Ok(Program::from_parts(sections, locals))
    }
}

/// The program that a text spells. A text that spells none is refused with its first fault and the number of that
/// one's line, from 1; so is one where the host refuses memory. It takes time in proportion to the text's length, and host
/// memory of at most a constant for each statement of the text, of which there are at most 4096.
pub fn assemble(alloc: Global, text: &[u8]) -> Result<Program, AssembleError>
    ensures { Assembles result (assembled text.now) }
{
    assemble_with(alloc, &mut Spare::new(alloc), text)
}

/// The same, in lists of statements that are spare as far as there are some. Those that are left are spare after it; after a refusal
/// before the end of the text the `Spare` is empty and without room.
pub fn assemble_with(
    alloc: Global,
    spare: &mut Spare,
    text: &[u8],
) -> Result<Program, AssembleError>
    ensures { Assembles result (assembled text.now) }
{
    let mut reading = Reading::new(alloc, mem::replace(spare, Spare::new(alloc)));
    let mut number: u64 = 1;
    let mut left = Some(text);
    while let Some(rest) = left {
        let after = match reading.read_first(alloc, number, rest) {
            Ok(after) => after,
            Err(error) => return Err(error.on_line(number)),
        };
        // No text has so many lines.
        let Some(next) = number.checked_add(1) else {
            return Err(AssembleError::Memory(AllocError));
        };
        number = next;
        left = after;
    }
    reading.finish(alloc, spare)
}
