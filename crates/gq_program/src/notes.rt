// What is noted of the statements of a list while they come.
ghost use Rattle.std.specs.Prelude.{◌≡◌, ◌∷◌, [], ◌++◌, ◌&&◌, List};
ghost use Rattle.gq_program.specs.declared.program_tree.Statement.{Statement};
ghost use Rattle.gq_program.specs.Notes.{asks_nothing, keeps_slots};
ghost use Rattle.gq_program.specs.internal.Listed_statements.{AreNotes};

use crate::program_tree::{Body, Statement};
use gq_model::program::Instruction;

/// Whether an instruction asks for nothing.
pub fn asks_nothing(instruction: &Instruction) -> bool
    ensures { result ≡ asks_nothing instruction.now }
{
    !matches!(
        instruction,
        Instruction::Open(_, _, _)
            | Instruction::Upgrade(_, _)
            | Instruction::Call(_)
            | Instruction::Close(_)
    )
}

/// Whether an instruction changes no slot.
pub fn keeps_slots(instruction: &Instruction) -> bool
    ensures { result ≡ keeps_slots instruction.now }
{
    !matches!(
        instruction,
        Instruction::Make(_, _, _)
            | Instruction::MakePool(_, _, _)
            | Instruction::Free(_)
            | Instruction::Open(_, _, _)
            | Instruction::Upgrade(_, _)
            | Instruction::Close(_)
    )
}

/// What is noted of a list of statements.
#[derive(Clone, Copy)]
pub(crate) struct StatementSummary {
    /// The steps of its blocks beside one for each; 2^64 - 1 where there are more.
    pub(crate) further: u64,
    /// No statement asks for anything.
    pub(crate) is_quiet: bool,
    /// No statement changes a slot.
    pub(crate) is_still: bool,
}

/// Whether both hold.
#[inline(always)]
fn both(first: bool, second: bool) -> bool
    ensures { result ≡ (first && second) }
{
    first && second
}

impl StatementSummary {
    /// Of no statement.
    pub(crate) fn none() -> StatementSummary
        ensures { AreNotes result [] }
    {
        StatementSummary {
            further: 0,
            is_quiet: true,
            is_still: true,
        }
    }

    /// Notes a statement with no statement in it more.
    #[inline(always)]
    fn add_plain(&mut self, instruction: &Instruction)
        ensures { (items : List Statement) → AreNotes self.old items → AreNotes self.new (items ++ Statement.Plain instruction.now ∷ []) }
    {
        let is_quiet = both(self.is_quiet, asks_nothing(instruction));
        let is_still = both(self.is_still, keeps_slots(instruction));
        self.is_quiet = is_quiet;
        self.is_still = is_still;
    }

    /// Notes an `if` more.
    fn add_if(&mut self, arm: &Body, other: &Body)
        ensures { (items : List Statement) → AreNotes self.old items → AreNotes self.new (items ++ Statement.If arm.now other.now ∷ []) }
    {
        let more = arm.cost().max(other.cost());
        let are_quiet = both(arm.is_quiet(), other.is_quiet());
        let are_still = both(arm.is_still(), other.is_still());
        *self = StatementSummary {
            further: self.further.saturating_add(more),
            is_quiet: both(self.is_quiet, are_quiet),
            is_still: both(self.is_still, are_still),
        };
    }

    /// Notes a loop more.
    fn add_loop(&mut self, count: u16, body: &Body)
        ensures { (items : List Statement) → AreNotes self.old items → AreNotes self.new (items ++ Statement.Loop count body.now ∷ []) }
    {
        let round = body.cost().saturating_add(1);
        let rounds = round.saturating_mul(u64::from(count));
        *self = StatementSummary {
            further: self.further.saturating_add(rounds),
            is_quiet: both(self.is_quiet, body.is_quiet()),
            is_still: both(self.is_still, body.is_still()),
        };
    }

    /// Notes one statement more.
    #[inline(always)]
    pub(crate) fn add(&mut self, statement: &Statement)
        ensures { (items : List Statement) → AreNotes self.old items → AreNotes self.new (items ++ statement.now ∷ []) }
    {
        match statement {
            Statement::Plain(instruction) => self.add_plain(instruction),
            Statement::If(arm, other) => self.add_if(arm, other),
            Statement::Loop(count, body) => self.add_loop(*count, body),
        }
    }
}
