// Statements that give a line.
ghost use Rattle.std.specs.Prelude.{◌≡◌, ℕ, List, decimal, drop, slice_get, IfErr, IfOk, OnErr, Err, Some};
ghost use Rattle.gq_model.specs.declared.program.Instruction.TheVariants as instruction;
ghost use Rattle.gq_bytecode.specs.declared.operation.Operation.TheVariants as operation;
ghost use Rattle.gq_slots.specs.Slots.{Slots};
ghost use Rattle.gq_statements.specs.Slot_statements.{done};
ghost use Rattle.gq_leaf.specs.Coded.{IsDue, operation_of};
ghost use Rattle.gq_leaf.specs.Leaf_steps.{LeadsTo, OpensNowhere, on, shows};
ghost use Rattle.gq_model.specs.declared.program.OperandSlot.{OperandSlot};

use crate::leaf::Leaf;
use gq_model::fault::Wrong;
use gq_model::program::Instruction;

impl Leaf {
    /// Takes the top operand, which is to be written in decimal, and goes on at the next place. `MissingOperand` where there is none; then nothing changes.
    pub fn show(&mut self) -> Result<u32, Wrong>
        requires due { IsDue self.old operation.Out }
        ensures step { IfOk result (λ n. (x : ℕ) (bs : List ℕ) (s : Slots) → LeadsTo x bs self.old self.new s s (shows (decimal n))) }
        ensures stays { IfOk result (λ n. self.new ≡ on self.old (drop 1 self.old.state.registers.operands)) }
        ensures wrong { IfErr result (λ wrong. (x : ℕ) (bs : List ℕ) (s : Slots) → LeadsTo x bs self.old self.old s s (done (Err wrong))) }
        ensures unchanged { OnErr result (self.new ≡ self.old) }
    {
        match self.registers.pop() {
            None => Err(Wrong::MissingOperand),
            Some(number) => {
                self.registers.advance();
                self.steps += 1;
                Ok(number)
            }
        }
    }

    /// The statement at the leaf's place, one of those that do not fit into eight bytes.
    pub fn long(&self, number: u32) -> &Instruction
        requires { operation_of self.now ≡ Some (operation.Long number) }
        ensures { slice_get self.now.code.longs number ≡ Some result.now }
    {
        self.code.long(number)
    }

    /// Where the leaf's route for the service of the `open` at its place leads to no server, the step is wrong. It does nothing.
    pub fn opens_nowhere(&self, number: u32)
        requires { operation_of self.now ≡ Some (operation.Long number) }
        ensures { (place : OperandSlot) (name : List ℕ) (n x : ℕ) (bs : List ℕ) (s : Slots)
            → slice_get self.now.code.longs number ≡ Some (instruction.Open place name n) → OpensNowhere x bs name self.now s }
    {
        let _steps = self.steps;
        let _number = number;
    }

    /// Goes on at the next place, once the text of the statement at its place is said.
    pub fn said(&mut self, number: u32)
        requires due { IsDue self.old (operation.Long number) }
        ensures step { (text : List ℕ) (x : ℕ) (bs : List ℕ) (s : Slots) → slice_get self.old.code.longs number ≡ Some (instruction.Say text)
            → LeadsTo x bs self.old self.new s s (shows text) }
        ensures stays { self.new ≡ on self.old self.old.state.registers.operands }
    {
        let _number = number;
        self.registers.advance();
        self.steps += 1;
    }
}
