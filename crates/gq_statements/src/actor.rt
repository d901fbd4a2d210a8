// Who does a statement, and the slots that it names.
ghost use Rattle.std.specs.Prelude.{◌≡◌, ◌<◌, length, IfSome, IsTrue};
ghost use Rattle.gq_model.specs.machine.World as world;
ghost use Rattle.gq_model.specs.texts.Operands.{is_slot_or_object};
ghost use Rattle.gq_slots.specs.Slots.{IsSlotId, Slots, holder};
ghost use Rattle.gq_slots.specs.Slot_addresses.{place_seen};
ghost use Rattle.gq_statements.specs.Slot_statements.{IsCurrent, current_seen};

use gq_model::program::OperandSlot;
use gq_model::section::Section;
use gq_trade::SlotId;

/// The session of the current request of a leaf, and the section that it does for it.
#[derive(Clone, Copy)]
pub struct Current {
    pub session: usize,
    pub section: Section,
}

/// The section that a leaf is in: that of its current request. Without one it is that of the signal that the leaf reacts to, else `main`.
#[inline(always)]
pub fn section_of(current: Option<Current>, reacting: Option<u8>) -> Section
    ensures { result ≡ world.section_of (current_seen current) reacting }
{
    match (current, reacting) {
        (Some(current), _) => current.section,
        (None, Some(signal)) => Section::Reacting(signal),
        (None, None) => Section::Main,
    }
}

/// A leaf that does a statement, with its current request: none in `main` or in the section for a signal.
#[derive(Clone, Copy)]
pub struct Actor {
    pub leaf: usize,
    pub current: Option<Current>,
}

impl Actor {
    /// Where the slot stands that a statement names: one of the leaf's own, or of the current session. `None` where no session is current and one of
    /// its slots is named.
    pub fn slot_id(self, place: OperandSlot) -> Option<SlotId>
        ensures is { place_seen result ≡ world.slot_id_of self.leaf (current_seen self.current) place }
        ensures there { (s : Slots) → self.leaf < length s.own → IsTrue (is_slot_or_object place) → IsCurrent s self.leaf self.current
            → IfSome result (λ p. IsSlotId s p × (holder s p ≡ self.leaf)) }
    {
        match (place, self.current) {
            (OperandSlot::Own(slot), _) => Some(SlotId::InLeaf(self.leaf, slot)),
            (OperandSlot::Shared(slot), Some(current)) => Some(SlotId::InSession(
                current.session,
                slot,
            )),
            (OperandSlot::Object, Some(current)) => Some(SlotId::InObject(current.session)),
            (OperandSlot::Shared(_) | OperandSlot::Object, None) => None,
        }
    }
}
