// What has been read of a text: the limits of locals, the closed sections, and the open blocks.
ghost use Rattle.std.specs.Prelude.{◌≡◌, ◌∷◌, [], Ok};
ghost use Rattle.gq_model.specs.texts.Letters.{words};
ghost use Rattle.gq_model.specs.texts.Text.{opening, close_block, ended, other_arm};
ghost use Rattle.gq_program.specs.Statement_trees.{tree_of};
ghost use Rattle.gq_asm.specs.internal.Operand_words.{Answers};
ghost use Rattle.gq_asm.specs.internal.Assembly_state.{AnswersBy, kind_of, blocks_of, reading_of, counted_at, nested_in, with_added};

use crate::asm_fault::LineError;
use crate::line_operands::at_end;
use gq_model::fault::TextFault;
use gq_model::limits::{GREATEST_DEPTH, GREATEST_STATEMENTS};
use gq_model::section::Section;
use gq_program::{Body, Spare, Statement};
use std::alloc::Global;
use std::collections::VecDeque;
use std::mem;

/// What a block is.
#[derive(Drop)]
pub enum BlockKind {
    /// A section.
    Section(Section),
    /// The first arm of an `if`.
    FirstArm,
    /// The second arm of an `if`, with the first.
    SecondArm(Body),
    /// The body of a loop, so many times.
    Loop(u16),
}

/// A block that is not closed yet.
#[derive(Drop)]
pub struct OpenBlock {
    pub kind: BlockKind,
    /// The line that opened it.
    pub line: u64,
    /// Its statements so far.
    pub before: Body,
}

/// What has been read: what came last stands first.
#[derive(Drop)]
pub struct Reading {
    /// Locals and their greatest values.
    pub limits: Vec<(u8, u32)>,
    /// The closed sections.
    pub sections: Vec<(Section, Body)>,
    /// How many statements were read.
    pub count: u16,
    /// The open blocks, the innermost first.
    pub blocks: VecDeque<OpenBlock>,
    /// Room for lists of statements.
    pub spare: Spare,
}

impl Reading {
    /// Nothing was read.
    pub fn new(alloc: Global, spare: Spare) -> Reading
        ensures { reading_of result ≡ record { limits = []; sections = []; count = 0; blocks = [] } }
    {
        Reading {
            limits: Vec::new(alloc),
            sections: Vec::new(alloc),
            count: 0,
            blocks: VecDeque::new(alloc),
            spare,
        }
    }

    /// Counts one statement more, of at most 4096.
    pub fn count_statement(&mut self) -> Result<(), TextFault>
        ensures { Answers (λ _. reading_of self.new) result (counted_at (reading_of self.old)) }
    {
        if self.count >= GREATEST_STATEMENTS {
            return Err(TextFault::TooLong);
        }
        self.count += 1;
        Ok(())
    }

    /// Looks for room for one block more in a section.
    #[tactic(auto, using(crate::proofs::Open_block_list::length_blocks))]
    pub fn find_room(&self) -> Result<(), TextFault>
        ensures { Answers (λ _. reading_of self.now) result (nested_in (reading_of self.now)) }
    {
        if self.blocks.iter().count() > GREATEST_DEPTH {
            return Err(TextFault::TooLong);
        }
        Ok(())
    }

    /// Puts a statement at the end of the innermost block.
    #[inline(always)]
    pub fn add(&mut self, statement: Statement) -> Result<(), LineError>
        ensures { AnswersBy (λ _. reading_of self.new) result (Ok (with_added (tree_of (statement ∷ [])) (reading_of self.old))) }
    {
        if let Some(block) = self.blocks.front_mut() {
            block.before.push_with(&mut self.spare, statement)?;
        }
        Ok(())
    }

    /// Opens a block.
    pub fn open(&mut self, alloc: Global, kind: BlockKind, line: u64) -> Result<(), LineError>
        ensures { AnswersBy (λ _. reading_of self.new) result (Ok (opening (reading_of self.old) (kind_of kind) line)) }
    {
        let before = Body::new(alloc);
        self.blocks.push_front(OpenBlock { kind, line, before })?;
        Ok(())
    }

    /// Makes a closed block a part of what is around it.
    fn close(&mut self, alloc: Global, block: OpenBlock) -> Result<(), LineError>
        ensures { AnswersBy (λ _. reading_of self.new) result
            (Ok (close_block (reading_of self.old) (kind_of block.kind) block.before (blocks_of self.old.blocks.items))) }
    {
        let OpenBlock {
            kind,
            line: _,
            before,
        } = block;
        match kind {
            BlockKind::Section(section) => {
                self.sections.insert(0, (section, before))?;
                Ok(())
            }
            BlockKind::FirstArm => self.add(Statement::If(before, Body::new(alloc))),
            BlockKind::SecondArm(arm) => self.add(Statement::If(arm, before)),
            BlockKind::Loop(count) => self.add(Statement::Loop(count, before)),
        }
    }

    /// `end`: closes the innermost block.
    pub fn end(&mut self, alloc: Global, after: &[u8]) -> Result<(), LineError>
        ensures { AnswersBy (λ _. reading_of self.new) result (ended (reading_of self.old) (blocks_of self.old.blocks.items) (words after.now)) }
    {
        let Some(block) = self.blocks.pop_front() else {
            return Err(LineError::Fault(TextFault::StrayEnd));
        };
        at_end(after)?;
        self.close(alloc, block)
    }

    /// `else`: the second arm of the innermost block.
    pub fn other_arm(&mut self, alloc: Global, after: &[u8]) -> Result<(), LineError>
        ensures { AnswersBy (λ _. reading_of self.new) result (other_arm (reading_of self.old) (blocks_of self.old.blocks.items) (words after.now)) }
    {
        let Some(block) = self.blocks.front_mut() else {
            return Err(LineError::Fault(TextFault::StrayEnd));
        };
        let BlockKind::FirstArm = block.kind else {
            return Err(LineError::Fault(TextFault::StrayEnd));
        };
        at_end(after)?;
        let arm = mem::replace(&mut block.before, Body::new(alloc));
        block.kind = BlockKind::SecondArm(arm);
        Ok(())
    }
}
