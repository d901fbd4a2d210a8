// The rules for one statement.
ghost use Rattle.std.specs.Prelude.{◌≡◌};
ghost use Rattle.gq_model.specs.rules.Rules.{judge, judged};
ghost use Rattle.gq_rules.specs.Judging.{after};

use crate::context::Context;
use crate::known_state::AbstractState;
use gq_caps::Kind;
use gq_model::fault::Rule;
use gq_program::Instruction;

impl<'a> Context<'a> {
    /// What is known after an instruction, by the rules for it alone. It stands alone, so that the usual ones don't pay for the others.
    #[inline(never)]
    fn judge(&self, state: &mut AbstractState, instruction: &Instruction) -> Result<(), Rule>
        ensures { after result state.new ≡ judge self.now state.old instruction.now }
    {
        match instruction {
            Instruction::Say(_) => Ok(()),
            Instruction::Out => {
                state.pop()?;
                Ok(())
            }
            Instruction::Operands(statement) => self.operate(state, *statement),
            Instruction::Make(form, place, size) => {
                self.fill(state, *place, Kind::memory(*form, *size))
            }
            Instruction::MakePool(place, size, count) => {
                self.fill(state, *place, Kind::Pool(*size, *count))
            }
            Instruction::Load(width, place) => self.load(state, *width, *place),
            Instruction::Store(width, place) => self.store(state, *width, *place),
            Instruction::Free(place) => self.free(state, *place),
            Instruction::Take(place) | Instruction::Give(place) => self.take_or_give(state, *place),
            Instruction::Peek(place) => self.peek(state, *place),
            Instruction::Poke(place) => self.poke(state, *place),
            Instruction::Open(place, service, given) => self.open(state, *place, service, *given),
            Instruction::Upgrade(place, given) => self.upgrade(state, *place, *given),
            Instruction::Call(place) => self.call(state, *place),
            Instruction::Close(place) => self.close(state, *place),
        }
    }

    /// The same. Those on operands alone, which are the usual ones, are judged at once.
    #[inline(always)]
    fn judge_usual(&self, state: &mut AbstractState, instruction: &Instruction) -> Result<(), Rule>
        ensures { after result state.new ≡ judge self.now state.old instruction.now }
    {
        match instruction {
            Instruction::Operands(statement) => self.operate(state, *statement),
            _ => self.judge(state, instruction),
        }
    }

    /// What is known after an instruction, by the rules for it and for what the current session costs after it.
    #[inline(always)]
    pub fn judged(&self, state: &mut AbstractState, instruction: &Instruction) -> Result<(), Rule>
        ensures { after result state.new ≡ judged self.now state.old instruction.now }
    {
        self.judge_usual(state, instruction)?;
        self.within_need(state)
    }
}
