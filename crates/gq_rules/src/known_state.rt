// What is known before a statement.
ghost use Rattle.std.specs.Prelude.{◌≡◌, [], ◌∷◌, ◌&&◌, IfOk, IfErr, OnOk, Ok, option_map, slice_get};
ghost use Rattle.gq_model.specs.rules.Kinds as Kinds;
ghost use Rattle.gq_model.specs.rules.Kinds.{with_kind};
ghost use Rattle.gq_model.specs.rules.Rules.{popped, pushed};
ghost use Rattle.gq_model.specs.rules.Rules as Rules;
ghost use Rattle.gq_model.specs.rules.Flow.{is_nil, none_left, chosen_from, join};
ghost use Rattle.gq_caps.specs.Known.{known, all_known};
ghost use Rattle.gq_rules.specs.Judging.{after, with_operand};

use crate::operand_rules::must;
use arrayvec::ArrayVec;
use gq_caps::{Bank, Kind, are_same};
use gq_model::fault::Rule;
use gq_model::limits::{OPERANDS, OWN_SLOTS, SESSION_SLOTS};
use gq_model::program::OperandSlot;
use std::marker::Model;

/// What is known before a statement: the kinds of the own slots and of the session's, and the greatest value of each operand, of
/// which the first is the top one. The fields have the top operand last.
#[derive(Drop)]
pub struct AbstractState {
    own: Bank<OWN_SLOTS>,
    bank: Bank<SESSION_SLOTS>,
    bounds: ArrayVec<u32, OPERANDS>,
}

impl Model for AbstractState {
    ghost use Rattle.std.specs.Prelude.{reverse};
    ghost use Rattle.gq_model.specs.rules.Kinds.{AbstractState};
    ghost use Rattle.gq_caps.specs.Known.{all_known};

    ghost Value = { AbstractState };

    ghost view = { λ s. record { own = all_known s.own; bank = all_known s.bank; bounds = reverse s.bounds.items } };
}

impl AbstractState {
    /// No operand is there.
    pub fn new(own: Bank<OWN_SLOTS>, bank: Bank<SESSION_SLOTS>) -> AbstractState
        ensures { result ≡ record { own = all_known own; bank = all_known bank; bounds = [] } }
    {
        AbstractState {
            own,
            bank,
            bounds: ArrayVec::new(),
        }
    }

    /// One operand is there, of which this is the greatest value.
    pub fn with_operand(
        own: Bank<OWN_SLOTS>,
        bank: Bank<SESSION_SLOTS>,
        bound: u32,
    ) -> AbstractState
        ensures { result ≡ record { own = all_known own; bank = all_known bank; bounds = bound ∷ [] } }
    {
        let mut bounds = ArrayVec::new();
        bounds.push(bound);
        AbstractState { own, bank, bounds }
    }

    /// The same once more.
    pub fn copy(&self) -> AbstractState
        ensures { result ≡ self.now }
    {
        let mut bounds = ArrayVec::new();
        match bounds.try_extend_from_slice(self.bounds.as_slice()) {
            Ok(()) => AbstractState {
                own: self.own,
                bank: self.bank,
                bounds,
            },
            Err(_) => unreachable!(),
        }
    }

    /// Whether a way leads back to where it started, with these kinds in the slots and no operand. Refused with `LeftoverOperand` where an operand is there,
    /// else with `JoinDiffers` where a slot holds another kind.
    pub fn comes_back(&self, own: &Bank<OWN_SLOTS>, bank: &Bank<SESSION_SLOTS>) -> Result<(), Rule>
        ensures { (s : Kinds.AbstractState) → s ≡ record { own = all_known own.now; bank = all_known bank.now; bounds = [] } → after result s ≡ join s
            self.now }
    {
        let is_same = are_same(own.kinds(), self.own.kinds())
            && are_same(bank.kinds(), self.bank.kinds());
        must(self.is_spent(), Rule::LeftoverOperand)?;
        must(is_same, Rule::JoinDiffers)
    }

    /// The same without operands.
    #[inline(always)]
    pub fn without_operands(&self) -> AbstractState
        ensures { result ≡ record self.now { bounds = [] } }
    {
        AbstractState {
            own: self.own,
            bank: self.bank,
            bounds: ArrayVec::new(),
        }
    }

    /// The kinds of the own slots.
    pub fn own(&self) -> &Bank<OWN_SLOTS>
        ensures { all_known result.now ≡ self.now.own }
    {
        &self.own
    }

    /// The kinds of the session's slots.
    pub fn bank(&self) -> &Bank<SESSION_SLOTS>
        ensures { all_known result.now ≡ self.now.bank }
    {
        &self.bank
    }

    /// The kind of an own slot, where there is one of this number.
    pub fn own_kind(&self, slot: u8) -> Option<Kind>
        ensures { option_map known result ≡ slice_get self.now.own slot }
    {
        self.own.get(slot)
    }

    /// The kind of a slot of the session, where there is one of this number.
    pub fn shared_kind(&self, slot: u8) -> Option<Kind>
        ensures { option_map known result ≡ slice_get self.now.bank slot }
    {
        self.bank.get(slot)
    }

    /// A slot that is there is of this kind from now on.
    pub fn set(&mut self, place: OperandSlot, kind: Kind)
        ensures { self.new ≡ with_kind self.old place (known kind) }
    {
        match place {
            OperandSlot::Own(slot) => self.own.set(slot, kind),
            OperandSlot::Shared(slot) => self.bank.set(slot, kind),
            OperandSlot::Object => {}
        }
    }

    /// Takes the top operand off, and answers its greatest value.
    pub fn pop(&mut self) -> Result<u32, Rule>
        ensures popped { IfOk result (λ a. self.old ≡ with_operand a self.new) }
        ensures missing { IfErr result (λ rule. (rule ≡ Rule.MissingOperand) × (self.old.bounds ≡ [])) }
    {
        match self.bounds.pop() {
            Some(bound) => Ok(bound),
            None => Err(Rule::MissingOperand),
        }
    }

    /// Puts an operand on top, of which this is the greatest value.
    pub fn push(&mut self, bound: u32) -> Result<(), Rule>
        ensures { after result self.new ≡ pushed bound self.old }
    {
        if self.bounds.len() < OPERANDS {
            self.bounds.push(bound);
            Ok(())
        } else {
            Err(Rule::StackTooDeep)
        }
    }

    /// Puts the top operand on top once more.
    pub fn duplicate(&mut self) -> Result<(), Rule>
        ensures { after result self.new ≡ popped self.old (λ a t. pushed a self.old) }
    {
        let top = self.pop()?;
        self.push(top)?;
        self.push(top)
    }

    /// Whether no operand is left.
    pub fn none_left(&self) -> Result<(), Rule>
        ensures judged { after result self.now ≡ none_left self.now }
        ensures none { OnOk result (self.now.bounds ≡ []) }
    {
        if self.is_spent() {
            Ok(())
        } else {
            Err(Rule::LeftoverOperand)
        }
    }

    /// Whether no operand is there.
    pub fn is_spent(&self) -> bool
        ensures { result ≡ is_nil self.now.bounds }
    {
        self.bounds.is_empty()
    }

    /// Whether no operand is left here, and none was left of another way that leads here.
    pub fn none_left_of_both(&self, other_is_spent: bool) -> Result<(), Rule>
        ensures { after result self.now ≡ Rules.must (other_is_spent && is_nil self.now.bounds) Rule.LeftoverOperand (Ok self.now) }
    {
        must(other_is_spent && self.is_spent(), Rule::LeftoverOperand)
    }

    /// No operand is there from now on.
    pub fn drop_operands(&mut self)
        ensures { self.new ≡ record self.old { bounds = [] } }
    {
        self.bounds.clear();
    }

    /// Takes the condition of an `if` off, which is to be the only operand.
    pub fn choose(&mut self) -> Result<(), Rule>
        ensures judged { after result self.new ≡ chosen_from self.old }
        ensures none { OnOk result (self.new.bounds ≡ []) }
    {
        self.pop()?;
        self.none_left()
    }

    /// Whether two ways that lead here leave the same kinds in all slots, and no operand.
    pub fn join(&self, other: &AbstractState) -> Result<(), Rule>
        ensures { after result self.now ≡ join self.now other.now }
    {
        let none_left = self.is_spent() && other.is_spent();
        let is_same = are_same(self.own.kinds(), other.own.kinds())
            && are_same(self.bank.kinds(), other.bank.kinds());
        must(none_left, Rule::LeftoverOperand)?;
        must(is_same, Rule::JoinDiffers)
    }
}
