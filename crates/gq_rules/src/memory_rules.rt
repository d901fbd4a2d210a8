// The rules for slots and for memory.
ghost use Rattle.std.specs.Prelude.{◌≡◌, option_map};
ghost use Rattle.gq_model.specs.rules.Kinds.{kind_at};
ghost use Rattle.gq_model.specs.rules.Rules.{judge, fill, freed, may_change, is_kept, is_shared, is_empty_kind, is_memory_kind, is_heap_kind};
ghost use Rattle.gq_model.specs.rules.Rules.{is_later, reach, shared_bytes, pool_kind};
ghost use Rattle.gq_caps.specs.Known.{known};
ghost use Rattle.gq_rules.specs.Judging.{after};

use crate::context::Context;
use crate::known_state::AbstractState;
use crate::operand_rules::{bytes_of, loaded_bound, must};
use gq_caps::Kind;
use gq_model::fault::Rule;
use gq_program::{Instruction, OperandSlot, Section, Width};
use gq_tariff::price::round_up;

/// Whether a slot of this kind holds nothing.
pub fn is_empty(kind: &Kind) -> bool
    ensures { result ≡ is_empty_kind (known kind.now) }
{
    matches!(kind, Kind::Empty | Kind::Waiting)
}

/// Whether what a slot of this kind holds can be freed.
fn is_memory(kind: &Kind) -> bool
    ensures { result ≡ is_memory_kind (known kind.now) }
{
    matches!(
        kind,
        Kind::Block(_) | Kind::Slice(_) | Kind::Space(_) | Kind::Pool(_, _)
    )
}

/// Whether what a slot of this kind holds lies in the heap.
fn is_in_heap(kind: &Kind) -> bool
    ensures { result ≡ is_heap_kind (known kind.now) }
{
    matches!(kind, Kind::Block(_) | Kind::Pool(_, _))
}

/// Whether a slot is one of the session's.
fn is_shared(place: OperandSlot) -> bool
    ensures { result ≡ is_shared place }
{
    matches!(place, OperandSlot::Shared(_))
}

/// The bytes of a buffer in whole pages, where there is one.
fn shared_bytes(buffer: u32) -> Option<u64>
    ensures { result ≡ shared_bytes buffer }
{
    if buffer == 0 {
        None
    } else {
        Some(round_up(u64::from(buffer)))
    }
}

/// The bytes of an entry of a pool, and the number of its entries.
fn pool_kind(kind: Option<Kind>) -> Option<(u16, u16)>
    ensures { result ≡ pool_kind (option_map known kind) }
{
    match kind {
        Some(Kind::Pool(size, count)) => Some((size, count)),
        _ => None,
    }
}

impl<'a> Context<'a> {
    /// The kind of a slot that is there; a session's slots and its object are there outside `main` only.
    pub fn kind_at(&self, state: &AbstractState, place: OperandSlot) -> Option<Kind>
        ensures { option_map known result ≡ kind_at self.now state.now place }
    {
        match place {
            OperandSlot::Own(slot) => state.own_kind(slot),
            OperandSlot::Shared(slot) => {
                if self.is_own() {
                    None
                } else {
                    state.shared_kind(slot)
                }
            }
            OperandSlot::Object => {
                if self.is_own() {
                    None
                } else {
                    Some(Kind::Slice(self.subject().object()))
                }
            }
        }
    }

    /// Whether the kind of a slot may change: an own one does in `main` alone.
    pub(crate) fn may_change(&self, place: OperandSlot) -> bool
        ensures { result ≡ may_change self.now place }
    {
        match place {
            OperandSlot::Own(_) => self.section().is_start(),
            OperandSlot::Shared(_) | OperandSlot::Object => true,
        }
    }

    /// Whether it is in a section for a session that stays open.
    fn is_later(&self) -> bool
        ensures { result ≡ is_later self.now.section }
    {
        matches!(self.section(), Section::Upgrading(_) | Section::Calling(_))
    }

    /// Whether a slot holds the buffer of a session that stays open.
    fn is_kept(&self, place: OperandSlot) -> bool
        ensures { result ≡ is_kept self.now place }
    {
        match place {
            OperandSlot::Shared(slot) => slot == 0
                && self.is_later()
                && self.subject().buffer() > 0,
            OperandSlot::Own(_) | OperandSlot::Object => false,
        }
    }

    /// The bytes that a slot of this kind gives access to; a link does so to its service's buffer.
    fn reach(&self, kind: Option<Kind>) -> Option<u64>
        ensures { result ≡ reach self.now (option_map known kind) }
    {
        match kind? {
            Kind::Space(size) => Some(round_up(u64::from(size))),
            Kind::Slice(size) | Kind::Block(size) => Some(u64::from(size)),
            Kind::Link(link) => {
                let interface = self.subject().interface(link.service())?;
                shared_bytes(interface.buffer())
            }
            Kind::Empty | Kind::Waiting | Kind::Pool(_, _) => None,
        }
    }

    /// A slot that is empty gets this kind.
    pub(crate) fn fill(
        &self,
        state: &mut AbstractState,
        place: OperandSlot,
        kind: Kind,
    ) -> Result<(), Rule>
        ensures { after result state.new ≡ fill self.now state.old place (known kind) }
    {
        let Some(old) = self.kind_at(state, place) else {
            return Err(Rule::WrongKind);
        };
        must(is_empty(&old), Rule::SlotInUse)?;
        must(self.may_change(place), Rule::OwnBankChanged)?;
        must(
            !(is_in_heap(&kind) && is_shared(place)),
            Rule::HeapInSession,
        )?;
        state.set(place, kind);
        Ok(())
    }

    /// A slot that holds memory is empty from now on.
    pub(crate) fn free(&self, state: &mut AbstractState, place: OperandSlot) -> Result<(), Rule>
        ensures { after result state.new ≡ freed self.now state.old place }
    {
        let Some(kind) = self.kind_at(state, place) else {
            return Err(Rule::WrongKind);
        };
        must(is_memory(&kind), Rule::WrongKind)?;
        must(!self.is_kept(place), Rule::SessionBankChanged)?;
        must(self.may_change(place), Rule::OwnBankChanged)?;
        state.set(place, Kind::Empty);
        Ok(())
    }

    /// The bytes that a slot gives access to.
    pub fn bytes_at(&self, state: &AbstractState, place: OperandSlot) -> Option<u64>
        ensures { result ≡ reach self.now (kind_at self.now state.now place) }
    {
        self.reach(self.kind_at(state, place))
    }

    /// The bytes of an entry of the pool in a slot, and the number of its entries.
    fn pool_at(&self, state: &AbstractState, place: OperandSlot) -> Option<(u16, u16)>
        ensures { result ≡ pool_kind (kind_at self.now state.now place) }
    {
        pool_kind(self.kind_at(state, place))
    }

    /// A byte or four are read.
    pub(crate) fn load(
        &self,
        state: &mut AbstractState,
        width: Width,
        place: OperandSlot,
    ) -> Result<(), Rule>
        ensures { after result state.new ≡ judge self.now state.old (Instruction.Load width place) }
    {
        let bytes = self.bytes_at(state, place);
        let index = state.pop()?;
        let Some(bytes) = bytes else {
            return Err(Rule::WrongKind);
        };
        must(
            u64::from(index) + bytes_of(width) <= bytes,
            Rule::OutOfRange,
        )?;
        state.push(loaded_bound(width))
    }

    /// A byte or four are written.
    pub(crate) fn store(
        &self,
        state: &mut AbstractState,
        width: Width,
        place: OperandSlot,
    ) -> Result<(), Rule>
        ensures { after result state.new ≡ judge self.now state.old (Instruction.Store width place) }
    {
        let bytes = self.bytes_at(state, place);
        state.pop()?;
        let index = state.pop()?;
        let Some(bytes) = bytes else {
            return Err(Rule::WrongKind);
        };
        must(
            u64::from(index) + bytes_of(width) <= bytes,
            Rule::OutOfRange,
        )
    }

    /// An entry of a pool is added or removed.
    pub(crate) fn take_or_give(
        &self,
        state: &mut AbstractState,
        place: OperandSlot,
    ) -> Result<(), Rule>
        ensures take { after result state.new ≡ judge self.now state.old (Instruction.Take place) }
        ensures give { after result state.new ≡ judge self.now state.old (Instruction.Give place) }
    {
        let pool = self.pool_at(state, place);
        let index = state.pop()?;
        let Some((_, count)) = pool else {
            return Err(Rule::WrongKind);
        };
        must(index < u32::from(count), Rule::OutOfRange)?;
        state.push(1)
    }

    /// A byte of an entry is read.
    pub(crate) fn peek(&self, state: &mut AbstractState, place: OperandSlot) -> Result<(), Rule>
        ensures { after result state.new ≡ judge self.now state.old (Instruction.Peek place) }
    {
        let pool = self.pool_at(state, place);
        let byte = state.pop()?;
        let index = state.pop()?;
        let Some((size, count)) = pool else {
            return Err(Rule::WrongKind);
        };
        must(index < u32::from(count), Rule::OutOfRange)?;
        must(byte < u32::from(size), Rule::OutOfRange)?;
        state.push(255)
    }

    /// A byte of an entry is written.
    pub(crate) fn poke(&self, state: &mut AbstractState, place: OperandSlot) -> Result<(), Rule>
        ensures { after result state.new ≡ judge self.now state.old (Instruction.Poke place) }
    {
        let pool = self.pool_at(state, place);
        state.pop()?;
        let byte = state.pop()?;
        let index = state.pop()?;
        let Some((size, count)) = pool else {
            return Err(Rule::WrongKind);
        };
        must(index < u32::from(count), Rule::OutOfRange)?;
        must(byte < u32::from(size), Rule::OutOfRange)
    }
}
