// Programs as trees.
ghost use Rattle.std.specs.Prelude.{◌≡◌, ◌<◌, ◌-◌, ◌^◌, min, OnOk, OnErr, IfOk, IfSome, is_some, ◌∷◌, [], ◌++◌, vec_len, vec_capacity};
ghost use Rattle.gq_model.specs.machine.Program.{Done, ◌then◌};
ghost use Rattle.gq_model.specs.texts.Code.{is_program, IsProgram};
ghost use Rattle.gq_model.specs.rules.Budgets.{cost};
ghost use Rattle.gq_program.specs.Statement_trees.{tree_of};
ghost use Rattle.gq_program.specs.Notes.{is_quiet, is_still};
ghost use Rattle.gq_program.specs.internal.Listed_statements.{AreNotes};

use crate::notes::StatementSummary;
use crate::program_check::{are_few, are_limits, are_sections};
use crate::spare::Spare;
pub use gq_model::limits::LOCALS;
use gq_model::program::Instruction;
use gq_model::section::Section;
use std::alloc::{AllocError, Global};
use std::marker::Model;

/// A statement of a program.
#[cycle(program)]
#[derive(Drop)]
pub enum Statement {
    /// One with no statement in it.
    Plain(Instruction),
    /// Takes the top operand: the first arm where it is not 0, else the second.
    If(Body, Body),
    /// Its body so many times, 1 to 65535.
    Loop(u16, Body),
}

/// A list of statements. What each of them adds to its steps is noted while it comes, as is whether one asks for anything or changes a slot: so none
/// of these is looked for again.
#[cycle(program)]
#[derive(Drop)]
pub struct Body {
    pub(crate) listed: Listed,
    pub(crate) alloc: Global,
}

/// Where the statements of a list lie: nowhere while there are none. An `if` has room for two of these, and so has every statement.
#[cycle(program)]
#[derive(Drop)]
pub(crate) enum Listed {
    Nothing,
    Statements(Box<Kept>),
}

/// The statements of a list, and what is noted of them.
#[cycle(program)]
#[derive(Drop)]
pub(crate) struct Kept {
    pub(crate) statements: Vec<Statement>,
    pub(crate) notes: StatementSummary,
}

impl Model for Body {
    ghost use Rattle.gq_model.specs.machine.Program.{Statements, size as statement_count};
    ghost use Rattle.gq_model.specs.internal.Stored.{statements_code};
    ghost use Rattle.std.specs.Coded.{codes};

    ghost Value = { Statements };

    ghost coded = { statements_code (Prim.hlevel codes) };

    ghost use Rattle.gq_program.specs.Statement_trees.{tree_of};
    ghost use Rattle.gq_program.specs.internal.Listed_statements.{items_of, IsNoted};

    ghost view = { λ b. tree_of (items_of b.listed) };

    ghost invariant = { λ b. IsNoted b.listed };

    ghost size = { statement_count };

    ghost use Rattle.std.proofs.Common.{arith};
    ghost use Rattle.gq_program.specs.internal.Smaller_bodies.{falls_in};

    ghost size_decreases = { λ b h. omega (arith, falls_in b.listed) };
}

impl Kept {
    /// Makes room for three times as many statements more as there are.
    #[cold]
    #[inline(never)]
    fn grow(&mut self) -> Result<(), AllocError>
        ensures statements { self.new.statements.items ≡ self.old.statements.items }
        ensures notes { self.new.notes ≡ self.old.notes }
        ensures room { OnOk result (vec_len self.new.statements < vec_capacity self.new.statements) }
    {
        let more = self.statements.len().saturating_mul(3).max(1);
        self.statements.reserve_exact(more)
    }

    /// Puts a statement at the end. Refused, the list stays as it was.
    #[inline(always)]
    fn push(&mut self, statement: Statement) -> Result<(), AllocError>
        requires { AreNotes self.old.notes self.old.statements.items }
        ensures notes { AreNotes self.new.notes self.new.statements.items }
        ensures pushed { OnOk result (self.new.statements.items ≡ self.old.statements.items ++ statement ∷ []) }
        ensures stays { OnErr result (self.new.statements.items ≡ self.old.statements.items) }
    {
        if self.statements.len() == self.statements.capacity() {
            self.grow()?;
        }
        self.notes.add(&statement);
        self.statements.push_reserved(statement);
        Ok(())
    }

    /// This one statement, with room for seven more.
    #[cold]
    #[inline(never)]
    fn first(alloc: Global, statement: Statement) -> Result<Box<Kept>, AllocError>
        ensures statements { IfOk result (λ b. b.value.statements.items ≡ statement ∷ []) }
        ensures notes { IfOk result (λ b. AreNotes b.value.notes b.value.statements.items) }
    {
        let mut statements = Vec::with_capacity(alloc, 8)?;
        let mut notes = StatementSummary::none();
        notes.add(&statement);
        statements.push_reserved(statement);
        let kept = Box::new(alloc, Kept { statements, notes })?;
        Ok(kept)
    }
}

impl Kept {
    /// This one statement, in a list without statements.
    fn again(mut kept: Box<Kept>, statement: Statement) -> Result<Box<Kept>, AllocError>
        ensures statements { IfOk result (λ b. b.value.statements.items ≡ statement ∷ []) }
        ensures notes { IfOk result (λ b. AreNotes b.value.notes b.value.statements.items) }
    {
        kept.statements.clear();
        kept.notes = StatementSummary::none();
        kept.push(statement)?;
        Ok(kept)
    }

    /// This one statement, in one of these lists, if there is one.
    #[cold]
    #[inline(never)]
    fn begun(
        alloc: Global,
        spare: &mut Spare,
        statement: Statement,
    ) -> Result<Box<Kept>, AllocError>
        ensures statements { IfOk result (λ b. b.value.statements.items ≡ statement ∷ []) }
        ensures notes { IfOk result (λ b. AreNotes b.value.notes b.value.statements.items) }
    {
        match spare.take() {
            Some(kept) => Kept::again(kept, statement),
            None => Kept::first(alloc, statement),
        }
    }
}

impl Body {
    /// An empty list.
    pub fn new(alloc: Global) -> Body
        ensures { result ≡ Done }
    {
        Body {
            listed: Listed::Nothing,
            alloc,
        }
    }

    /// Its statements, in their order.
    pub fn statements(&self) -> &[Statement]
        ensures { tree_of result.now ≡ self.now }
    {
        match &self.listed {
            Listed::Nothing => &[],
            Listed::Statements(kept) => kept.statements.as_slice(),
        }
    }

    /// The greatest number of its steps; 2^64 - 1 where there are more. It goes over no statement.
    pub fn cost(&self) -> u64
        ensures { result ≡ min (cost self.now) (2 ^ 64 - 1) }
    {
        match &self.listed {
            Listed::Nothing => 0,
            Listed::Statements(kept) => {
                let count = kept.statements.len() as u64;
                count.saturating_add(kept.notes.further)
            }
        }
    }

    /// Whether no statement, in a block of it neither, asks for anything. It goes over no statement.
    pub fn is_quiet(&self) -> bool
        ensures { result ≡ is_quiet self.now }
    {
        match &self.listed {
            Listed::Nothing => true,
            Listed::Statements(kept) => kept.notes.is_quiet,
        }
    }

    /// Whether no statement, in a block of it neither, changes a slot. It goes over no statement.
    pub fn is_still(&self) -> bool
        ensures { result ≡ is_still self.now }
    {
        match &self.listed {
            Listed::Nothing => true,
            Listed::Statements(kept) => kept.notes.is_still,
        }
    }

    /// Puts a statement at the end. Refused, the list stays as it was.
    #[inline(always)]
    pub fn push(&mut self, statement: Statement) -> Result<(), AllocError>
        ensures pushed { OnOk result (self.new ≡ self.old then tree_of (statement ∷ [])) }
        ensures stays { OnErr result (self.new ≡ self.old) }
    {
        match &mut self.listed {
            Listed::Statements(kept) => kept.push(statement),
            Listed::Nothing => {
                self.listed = Listed::Statements(Kept::first(self.alloc, statement)?);
                Ok(())
            }
        }
    }
}

impl Body {
    /// Puts a statement at the end. Refused, the list stays as it was. A list that begins takes the room of one of these, if there is one.
    #[inline(always)]
    pub fn push_with(&mut self, spare: &mut Spare, statement: Statement) -> Result<(), AllocError>
        ensures pushed { OnOk result (self.new ≡ self.old then tree_of (statement ∷ [])) }
        ensures stays { OnErr result (self.new ≡ self.old) }
    {
        match &mut self.listed {
            Listed::Statements(kept) => kept.push(statement),
            Listed::Nothing => {
                self.listed = Listed::Statements(Kept::begun(self.alloc, spare, statement)?);
                Ok(())
            }
        }
    }
}

/// A program: the sections that are there, in their order, and the greatest values of the eight locals. Its statements are at
/// most 4096 and at most four deep, and each operand is in its range; so each program has a code.
#[derive(Drop)]
pub struct Program {
    pub(crate) sections: Vec<(Section, Body)>,
    locals: [u32; LOCALS],
}

impl Model for Program {
    ghost use Rattle.gq_model.specs.machine.Program.{Program};
    ghost use Rattle.gq_model.specs.texts.Code.{IsProgram};
    ghost use Rattle.gq_model.specs.internal.Stored.{statements_code};
    ghost use Rattle.std.specs.Coded.{codes};

    ghost Value = { Program };

    ghost coded = { Prim.hlevel (codes, statements_code (Prim.hlevel codes)) };

    ghost view = { λ p. record { sections = p.sections.items; locals = p.locals } };

    ghost invariant = { λ p. IsProgram (record { sections = p.sections.items; locals = p.locals }) };
}

impl Program {
    /// The program of these sections, with these greatest values of the locals, if it is one. The sections have to stand in their order, each once. The
    /// statements are at most 4096 and at most four deep, and each operand is in its range. It goes over the statements once.
    pub fn new(sections: Vec<(Section, Body)>, locals: [u32; LOCALS]) -> Option<Program>
        ensures made { IfSome result (λ p. p ≡ record { sections = sections.items; locals = locals }) }
        ensures when { is_some result ≡ is_program (record { sections = sections.items; locals = locals }) }
    {
        if are_limits(&locals) && are_sections(&sections) && are_few(&sections) {
            Some(Program::from_parts(sections, locals))
        } else {
            None
        }
    }

    /// The program of these sections, with these greatest values of the locals, which is known to be one.
    pub fn from_parts(sections: Vec<(Section, Body)>, locals: [u32; LOCALS]) -> Program
        requires { IsProgram (record { sections = sections.items; locals = locals }) }
        ensures { result ≡ record { sections = sections.items; locals = locals } }
    {
        Program { sections, locals }
    }

    /// What every program is: its sections stand in their order, each once, its statements are at most 4096 and at most four deep,
    /// and each operand is in its range. It does nothing.
    pub fn laws(&self)
        ensures { IsProgram self.now }
    {
        let _locals = self.locals;
    }

    /// The sections that are there, in their order.
    pub fn sections(&self) -> &[(Section, Body)]
        ensures { result.now ≡ self.now.sections }
    {
        self.sections.as_slice()
    }

    /// The greatest values of the locals; 4294967295 is no limit.
    pub fn locals(&self) -> &[u32; LOCALS]
        ensures { result.now ≡ self.now.locals }
    {
        &self.locals
    }
}
