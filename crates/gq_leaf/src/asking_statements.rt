// Statements that ask something of others: the leaf is blocked until the reply.
ghost use Rattle.std.specs.Prelude.{◌≡◌, ℕ, List, IsTrue, Some, drop, slice_get};
ghost use Rattle.gq_model.specs.declared.program.Instruction.TheVariants as instruction;
ghost use Rattle.gq_model.specs.declared.program.Instruction.{Instruction};
ghost use Rattle.gq_model.specs.declared.program.OperandSlot.{OperandSlot};
ghost use Rattle.gq_model.specs.texts.Operands.{is_slot};
ghost use Rattle.gq_bytecode.specs.Bytecode_layout.{instruction_in};
ghost use Rattle.gq_leaf.specs.Named_requests.{slot_named};
ghost use Rattle.gq_bytecode.specs.declared.operation.Operation.TheVariants as operation;
ghost use Rattle.gq_statements.specs.Slot_statements.{done};
ghost use Rattle.gq_statements.specs.Client_requests.{CanAsk, CanOpen, OwnsLinks};
ghost use Rattle.gq_leaf.specs.Coded.{IsDue, operation_of};
ghost use Rattle.gq_leaf.specs.Leaf_steps.{BlocksWith, LeadsTo, OpensTo, UpgradesTo};

use crate::leaf::Leaf;
use gq_bytecode::Operation;
use gq_model::fault::Wrong;
use gq_model::phase::Phase;
use gq_model::program::OperandSlot;
use gq_slots::Slots;
use gq_statements::{Actor, call, close, open, upgrade};
use gq_tariff::Amount;

impl Leaf {
    /// What the request at the leaf's place names is a slot, of the leaf or of its session. It does nothing.
    pub fn names_slot(&self, fetched: Operation)
        requires next { operation_of self.now ≡ Some fetched }
        requires more { fetched ≡ operation.End → ⊥ }
        ensures { (i : Instruction) (place : OperandSlot) → instruction_in self.now.code.longs fetched ≡ Some i → slot_named i ≡ Some place
            → IsTrue (is_slot place) }
    {
        let _steps = self.steps;
        let _fetched = fetched;
    }

    /// Asks for the end of the session of a link, and waits for the reply. Wrong as `gq_statements::close` says; then nothing changes.
    pub fn close(
        &mut self,
        place: OperandSlot,
        number: usize,
        slots: &mut Slots,
    ) -> Result<(), Wrong>
        requires due { IsDue self.old (operation.Close place) }
        requires asks { CanAsk slots.old (record { leaf = number; current = self.old.state.current }) }
        requires linked { OwnsLinks slots.old number }
        ensures step { (bs : List ℕ) → LeadsTo number bs self.old self.new slots.old slots.new (done result) }
        ensures waits { BlocksWith result self.old self.new slots.old slots.new self.old.state.registers.operands }
    {
        let actor = Actor {
            leaf: number,
            current: self.current,
        };
        match close(actor, slots, place) {
            Err(wrong) => Err(wrong),
            Ok(()) => {
                self.phase = Phase::Blocked;
                self.registers.advance();
                self.steps += 1;
                Ok(())
            }
        }
    }

    /// Calls the service of a link with the top operand, and waits for the reply. `MissingOperand` where there is none; else wrong as
    /// `gq_statements::call` says. Then nothing changes.
    pub fn call(
        &mut self,
        place: OperandSlot,
        number: usize,
        slots: &mut Slots,
    ) -> Result<(), Wrong>
        requires due { IsDue self.old (operation.Call place) }
        requires asks { CanAsk slots.old (record { leaf = number; current = self.old.state.current }) }
        requires linked { OwnsLinks slots.old number }
        ensures step { (bs : List ℕ) → LeadsTo number bs self.old self.new slots.old slots.new (done result) }
        ensures waits { BlocksWith result self.old self.new slots.old slots.new (drop 1 self.old.state.registers.operands) }
    {
        let Some(value) = self.registers.top() else {
            return Err(Wrong::MissingOperand);
        };
        let actor = Actor {
            leaf: number,
            current: self.current,
        };
        match call(actor, slots, place, value) {
            Err(wrong) => Err(wrong),
            Ok(()) => {
                self.phase = Phase::Blocked;
                let _value = self.registers.pop();
                self.registers.advance();
                self.steps += 1;
                Ok(())
            }
        }
    }

    /// Asks for the next level of the session of a link, gives its server what that needs, and waits for the reply. Wrong as
    /// `gq_statements::upgrade` says; then nothing changes.
    pub fn upgrade(
        &mut self,
        place: OperandSlot,
        bytes: u32,
        donation: Amount,
        number: usize,
        slots: &mut Slots,
    ) -> Result<(), Wrong>
        requires due { IsDue self.old (operation.Upgrade place bytes) }
        requires asks { CanAsk slots.old (record { leaf = number; current = self.old.state.current }) }
        requires linked { OwnsLinks slots.old number }
        requires counted { slots.old.trades.trading.ledger.price ≡ 0 → donation.caps ≡ 0 }
        ensures step { (bs : List ℕ) → UpgradesTo number bs place bytes donation self.old self.new slots.old slots.new (done result) }
        ensures waits { BlocksWith result self.old self.new slots.old slots.new self.old.state.registers.operands }
    {
        let _bytes = bytes;
        let actor = Actor {
            leaf: number,
            current: self.current,
        };
        match upgrade(actor, slots, place, donation) {
            Err(wrong) => Err(wrong),
            Ok(()) => {
                self.phase = Phase::Blocked;
                self.registers.advance();
                self.steps += 1;
                Ok(())
            }
        }
    }

    /// Asks a server for a session of a service, gives it what the service needs, and waits for the reply. Wrong as `gq_statements::open` says; then
    /// nothing changes.
    pub fn open(
        &mut self,
        statement: u32,
        place: OperandSlot,
        server: usize,
        service: usize,
        donation: Amount,
        number: usize,
        slots: &mut Slots,
    ) -> Result<(), Wrong>
        requires due { IsDue self.old (operation.Long statement) }
        requires place { IsTrue (is_slot place) }
        requires asks { CanAsk slots.old (record { leaf = number; current = self.old.state.current }) }
        requires opens { CanOpen slots.old number (Some server) service donation }
        ensures step { (name : List ℕ) (n : ℕ) (bs : List ℕ) → slice_get self.old.code.longs statement ≡ Some (instruction.Open place name n)
            → OpensTo number bs name n server service donation self.old self.new slots.old slots.new (done result) }
        ensures waits { BlocksWith result self.old self.new slots.old slots.new self.old.state.registers.operands }
    {
        let _statement = statement;
        let actor = Actor {
            leaf: number,
            current: self.current,
        };
        match open(actor, slots, place, Some(server), service, donation) {
            Err(wrong) => Err(wrong),
            Ok(()) => {
                self.phase = Phase::Blocked;
                self.registers.advance();
                self.steps += 1;
                Ok(())
            }
        }
    }
}
