// Lines in a section.
ghost use Rattle.std.specs.Prelude.{Ok};
ghost use Rattle.gq_model.specs.texts.Letters.{words};
ghost use Rattle.gq_model.specs.texts.Spelling.{spellings, shape_of_word, found, instruction_in};
ghost use Rattle.gq_model.specs.declared.fault.TextFault.TheVariants.{UnknownWord};
ghost use Rattle.gq_model.specs.texts.Text.{First_arm, Loop_body, at_end, numbered, opening, counted, nested, put, statement};
ghost use Rattle.gq_program.specs.Statement_table.{shape_of};
ghost use Rattle.gq_asm.specs.internal.Assembly_state.{AnswersBy, reading_of};

use crate::asm_fault::LineError;
use crate::assembly_state::{BlockKind, Reading};
use crate::line_operands::{at_end, next_number};
use crate::operand_shapes::{
    open, out, plain, pool, say, with_amount, with_bytes, with_number, with_slot,
};
use crate::statement_words::shape_with;
use gq_model::fault::TextFault;
use gq_model::limits::GREATEST_ROUNDS;
use gq_model::program::Instruction;
use gq_model::spelling::same_text;
use gq_program::{Shape, Statement};
use std::alloc::Global;

impl Reading {
    /// `if`: opens its first arm.
    fn open_if(&mut self, alloc: Global, line: u64, after: &[u8]) -> Result<(), LineError>
        ensures { AnswersBy (λ _. reading_of self.new) result (nested (reading_of self.old) (λ s. at_end (words after.now) (Ok (opening s First_arm line)))) }
    {
        self.count_statement()?;
        self.find_room()?;
        at_end(after)?;
        self.open(alloc, BlockKind::FirstArm, line)
    }

    /// `loop`: opens its body.
    fn open_loop(&mut self, alloc: Global, line: u64, after: &[u8]) -> Result<(), LineError>
        ensures { AnswersBy (λ _. reading_of self.new) result
            (nested (reading_of self.old) (λ s. numbered 1 65535 (words after.now) (λ n more. at_end more (Ok (opening s (Loop_body n) line))))) }
    {
        self.count_statement()?;
        self.find_room()?;
        let (count, rest) = next_number(after, 1, GREATEST_ROUNDS as u32)?;
        at_end(rest)?;
        self.open(alloc, BlockKind::Loop(count as u16), line)
    }

    /// Puts the statement that was read at the end of the innermost block.
    #[inline(always)]
    fn put(&mut self, read: Result<Instruction, TextFault>) -> Result<(), LineError>
        ensures { AnswersBy (λ _. reading_of self.new) result (put (reading_of self.old) read) }
    {
        let instruction = read?;
        self.add(Statement::Plain(instruction))
    }

    /// Reads the text of `say`, and puts the statement at the end of the innermost block. It and the two after it stand alone, since few statements
    /// have a text, a name or three operands.
    #[inline(never)]
    fn put_said(&mut self, alloc: Global, after: &[u8]) -> Result<(), LineError>
        ensures { AnswersBy (λ _. reading_of self.new) result (put (reading_of self.old) (instruction_in after.now (shape_of Shape.Say) (words after.now))) }
    {
        let instruction = say(alloc, after)?;
        self.add(Statement::Plain(instruction))
    }

    /// Reads the operands of `pool`, and puts the statement at the end of the innermost block.
    #[inline(never)]
    fn put_pool(&mut self, after: &[u8]) -> Result<(), LineError>
        ensures { AnswersBy (λ _. reading_of self.new) result (put (reading_of self.old) (instruction_in after.now (shape_of Shape.Pool) (words after.now))) }
    {
        self.put(pool(after))
    }

    /// Reads the operands of `open`, and puts the statement at the end of the innermost block.
    #[inline(never)]
    fn put_open(&mut self, after: &[u8]) -> Result<(), LineError>
        ensures { AnswersBy (λ _. reading_of self.new) result (put (reading_of self.old) (instruction_in after.now (shape_of Shape.Open) (words after.now))) }
    {
        self.put(open(after))
    }

    /// Reads the operands of a statement, in a way of its own for each shape, and puts it at the end of the innermost block.
    fn put_shape(&mut self, alloc: Global, shape: Shape, after: &[u8]) -> Result<(), LineError>
        ensures { AnswersBy (λ _. reading_of self.new) result (put (reading_of self.old) (instruction_in after.now (shape_of shape) (words after.now))) }
    {
        match shape {
            Shape::Out => self.put(out(after)),
            Shape::Plain(statement) => self.put(plain(statement, after)),
            Shape::Number(statement) => self.put(with_number(statement, after)),
            Shape::Slot(statement) => self.put(with_slot(statement, after)),
            Shape::Bytes(statement) => self.put(with_bytes(statement, after)),
            Shape::Amount(statement) => self.put(with_amount(statement, after)),
            Shape::Say => self.put_said(alloc, after),
            Shape::Pool => self.put_pool(after),
            Shape::Open => self.put_open(after),
        }
    }

    /// A statement of the table.
    fn tabled(&mut self, alloc: Global, word: &[u8], after: &[u8]) -> Result<(), LineError>
        ensures { AnswersBy (λ _. reading_of self.new) result
            (found (shape_of_word word.now spellings) UnknownWord
            (λ shape. counted (reading_of self.old) (λ s. put s (instruction_in after.now shape (words after.now))))) }
    {
        let Some(shape) = shape_with(word) else {
            return Err(LineError::Fault(TextFault::UnknownWord));
        };
        self.count_statement()?;
        self.put_shape(alloc, shape, after)
    }

    /// A line in a section: its first word, and what follows that.
    pub fn statement(
        &mut self,
        alloc: Global,
        line: u64,
        word: &[u8],
        after: &[u8],
    ) -> Result<(), LineError>
        ensures { AnswersBy (λ _. reading_of self.new) result (statement (reading_of self.old) line word.now (words after.now) after.now) }
    {
        if same_text(word, b"end") {
            return self.end(alloc, after);
        }
        if same_text(word, b"else") {
            return self.other_arm(alloc, after);
        }
        if same_text(word, b"if") {
            return self.open_if(alloc, line, after);
        }
        if same_text(word, b"loop") {
            return self.open_loop(alloc, line, after);
        }
        self.tabled(alloc, word, after)
    }
}
