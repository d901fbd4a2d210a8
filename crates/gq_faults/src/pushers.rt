// Which statements pushed the operands that are there.
// No contract: its results are details alone. Tests show them.
use crate::fault_value::{Compared, Pusher};
use gq_model::program::{Bare, Instruction, OperandStatement, WithNumber};
use gq_program::Section;
use std::alloc::{AllocError, Global};

/// The statements that pushed the operands that are there, the top one's last.
#[derive(Drop)]
pub(crate) struct Pushers {
    alloc: Global,
    numbers: Vec<u64>,
}

// How many operands a statement on operands alone takes off, and how many it puts there.
fn effect_alone(statement: OperandStatement) -> (usize, usize) {
    match statement {
        OperandStatement::Plain(Bare::Drop) => (1, 0),
        OperandStatement::Plain(Bare::Dup) => (0, 1),
        OperandStatement::Plain(Bare::Combine(_)) => (2, 1),
        OperandStatement::Numbered(statement, _) => match statement {
            WithNumber::Push | WithNumber::Get | WithNumber::Index | WithNumber::Input => (0, 1),
            WithNumber::Divide | WithNumber::Modulo => (1, 1),
            WithNumber::Set => (1, 0),
        },
    }
}

// How many operands an instruction takes off, and how many it puts there.
fn effect(instruction: &Instruction) -> (usize, usize) {
    match instruction {
        Instruction::Operands(statement) => effect_alone(*statement),
        Instruction::Out => (1, 0),
        Instruction::Load(_, _)
        | Instruction::Take(_)
        | Instruction::Give(_)
        | Instruction::Call(_) => (1, 1),
        Instruction::Peek(_) => (2, 1),
        Instruction::Store(_, _) => (2, 0),
        Instruction::Poke(_) => (3, 0),
        Instruction::Say(_)
        | Instruction::Make(_, _, _)
        | Instruction::MakePool(_, _, _)
        | Instruction::Free(_)
        | Instruction::Open(_, _, _)
        | Instruction::Upgrade(_, _)
        | Instruction::Close(_) => (0, 0),
    }
}

impl Pushers {
    /// Those at the start of a section: of a call its argument is there.
    pub fn new(alloc: Global, section: Section) -> Result<Pushers, AllocError> {
        let mut numbers = Vec::new(alloc);
        if let Section::Calling(_) = section {
            numbers.push(0)?;
        }
        Ok(Pushers { alloc, numbers })
    }

    // Takes so many operands off.
    fn take_off(&mut self, count: usize) {
        for _ in 0..count {
            let _number = self.numbers.pop();
        }
    }

    /// Those after an instruction, which is the statement of this number.
    pub fn follow(&mut self, number: u64, instruction: &Instruction) -> Result<(), AllocError> {
        let (taken, put) = effect(instruction);
        self.take_off(taken);
        for _ in 0..put {
            self.numbers.push(number)?;
        }
        Ok(())
    }

    /// Takes the condition of an `if` off.
    pub fn drop_condition(&mut self) {
        self.take_off(1);
    }

    /// What is left over where no operand may be; none where there is none.
    pub fn left(&self) -> Result<Option<Compared>, AllocError> {
        if self.numbers.is_empty() {
            return Ok(None);
        }
        let mut pushers = Vec::new(self.alloc);
        for number in &self.numbers {
            pushers.push(Pusher {
                number: *number,
                line: None,
            })?;
        }
        Ok(Some(Compared::Left(pushers)))
    }

    /// What is left over at the end of a section: of a call one operand is its reply.
    pub fn left_at_end(&mut self, section: Section) -> Result<Compared, AllocError> {
        if let Section::Calling(_) = section {
            self.take_off(1);
        }
        Ok(self.left()?.unwrap_or(Compared::Nothing))
    }
}
