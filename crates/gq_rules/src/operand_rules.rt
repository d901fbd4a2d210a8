// The rules for operands.
ghost use Rattle.std.specs.Prelude.{◌≡◌};
ghost use Rattle.gq_model.specs.declared.program.Instruction.TheVariants.{Operands};
ghost use Rattle.gq_model.specs.declared.program.OperandStatement.TheVariants.{Plain, Numbered};
ghost use Rattle.gq_model.specs.machine.Program.{bytes_of};
ghost use Rattle.gq_model.specs.rules.Rules.{bound_of, loaded_bound, judge};
ghost use Rattle.gq_rules.specs.Judging.{after, answered};

use crate::context::Context;
use crate::known_state::AbstractState;
use gq_model::fault::Rule;
use gq_program::{Bare, OperandStatement, Operator, Width, WithNumber};

/// Whether the condition holds, or else the rule that is broken.
pub fn must(condition: bool, rule: Rule) -> Result<(), Rule>
    ensures { answered result condition rule }
{
    if condition { Ok(()) } else { Err(rule) }
}

/// The greatest value that an operator makes of numbers up to these.
pub(crate) fn bound_of(operator: Operator, a: u32, b: u32) -> u32
    ensures { result ≡ bound_of operator a b }
{
    match operator {
        Operator::Add => a.saturating_add(b),
        Operator::Subtract => u32::MAX,
        Operator::Multiply => a.saturating_mul(b),
        Operator::And => a.min(b),
        Operator::Equal | Operator::Less => 1,
    }
}

/// The greatest value that is loaded.
pub(crate) fn loaded_bound(width: Width) -> u32
    ensures { result ≡ loaded_bound width }
{
    match width {
        Width::Byte => 255,
        Width::Word => u32::MAX,
    }
}

/// The bytes that are read or written at once.
pub(crate) fn bytes_of(width: Width) -> u64
    ensures { result ≡ bytes_of width }
{
    match width {
        Width::Byte => 1,
        Width::Word => 4,
    }
}

impl<'a> Context<'a> {
    /// An operator makes one operand of two.
    fn combine(&self, state: &mut AbstractState, operator: Operator) -> Result<(), Rule>
        ensures { after result state.new ≡ judge self.now state.old (Operands (Plain (Bare.Combine operator))) }
    {
        let b = state.pop()?;
        let a = state.pop()?;
        state.push(bound_of(operator, a, b))
    }

    /// The top operand is divided by a number.
    fn divide(&self, state: &mut AbstractState, by: u32) -> Result<(), Rule>
        ensures { after result state.new ≡ judge self.now state.old (Operands (Numbered WithNumber.Divide by)) }
    {
        let a = state.pop()?;
        state.push(a.checked_div(by).unwrap_or(0))
    }

    /// The remainder of the top operand by a number.
    fn modulo(&self, state: &mut AbstractState, by: u32) -> Result<(), Rule>
        ensures { after result state.new ≡ judge self.now state.old (Operands (Numbered WithNumber.Modulo by)) }
    {
        let a = state.pop()?;
        state.push(a.min(by.saturating_sub(1)))
    }

    /// A local takes the top operand.
    fn set_local(&self, state: &mut AbstractState, local: u32) -> Result<(), Rule>
        ensures { after result state.new ≡ judge self.now state.old (Operands (Numbered WithNumber.Set local)) }
    {
        let a = state.pop()?;
        must(a <= self.local(local), Rule::ValueTooLarge)
    }

    /// The round of a loop becomes an operand.
    fn index(&self, state: &mut AbstractState, depth: u32) -> Result<(), Rule>
        ensures { after result state.new ≡ judge self.now state.old (Operands (Numbered WithNumber.Index depth)) }
    {
        match self.count(depth) {
            Some(count) => state.push(u32::from(count).saturating_sub(1)),
            None => Err(Rule::MissingOperand),
        }
    }

    /// An input becomes an operand, which is at most the greatest value of this input.
    fn input(&self, state: &mut AbstractState, number: u32) -> Result<(), Rule>
        ensures { after result state.new ≡ judge self.now state.old (Operands (Numbered WithNumber.Input number)) }
    {
        match self.greatest_input(number) {
            Some(greatest) => state.push(greatest),
            None => {
                state.push(0)?;
                Err(Rule::NoInput)
            }
        }
    }

    /// What is known after a statement on operands alone.
    #[inline(always)]
    pub(crate) fn operate(
        &self,
        state: &mut AbstractState,
        statement: OperandStatement,
    ) -> Result<(), Rule>
        ensures { after result state.new ≡ judge self.now state.old (Operands statement) }
    {
        use OperandStatement::{Numbered, Plain};
        match statement {
            Plain(Bare::Drop) => {
                state.pop()?;
                Ok(())
            }
            Plain(Bare::Dup) => state.duplicate(),
            Plain(Bare::Combine(operator)) => self.combine(state, operator),
            Numbered(WithNumber::Push, number) => state.push(number),
            Numbered(WithNumber::Divide, by) => self.divide(state, by),
            Numbered(WithNumber::Modulo, by) => self.modulo(state, by),
            Numbered(WithNumber::Get, local) => state.push(self.local(local)),
            Numbered(WithNumber::Set, local) => self.set_local(state, local),
            Numbered(WithNumber::Index, depth) => self.index(state, depth),
            Numbered(WithNumber::Input, number) => self.input(state, number),
        }
    }
}
