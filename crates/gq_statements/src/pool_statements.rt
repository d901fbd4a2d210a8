// Statements on the entries of pools.
ghost use Rattle.std.specs.Prelude.{◌≡◌, ◌∷◌, List, ℕ, IfSome, IsTrue};
ghost use Rattle.gq_model.specs.machine.Doing.{Doing, standing, with_operands};
ghost use Rattle.gq_model.specs.machine.Memory as memory;
ghost use Rattle.gq_model.specs.texts.Operands.{is_slot};
ghost use Rattle.gq_slots.specs.Slots.{Frame, world_seen};
ghost use Rattle.gq_statements.specs.Slot_statements.{IsActor, IsBy, LeavesRest, Pushes, done, read, reported};
ghost use Rattle.gq_statements.specs.internal.Found.{IsOwnPool, IsPool};

use crate::actor::Actor;
use gq_model::fault::Wrong;
use gq_model::program::OperandSlot;
use gq_slots::Slots;
use gq_trade::SlotId;

impl Actor {
    // The pool that a statement names: where it stands, the bytes of an entry, and how many entries there are. `None` where it names none.
    #[inline(always)]
    pub(crate) fn pool(self, slots: &Slots, place: OperandSlot) -> Option<(SlotId, u32, u32)>
        requires place { IsTrue (is_slot place) }
        requires actor { IsActor slots.now self }
        ensures is { IfSome result (λ p. IsOwnPool slots.now self.leaf p.0 p.1 p.2) }
        ensures found { (f : Frame) (d : Doing) → IsBy d self → IsPool d (world_seen f slots.now) place slots.now result }
    {
        slots.laws();
        let slot_id = self.slot_id(place)?;
        let (size, count) = slots.content(slot_id).entries()?;
        Some((slot_id, size, count))
    }

    /// The byte of an entry of a pool, 0 where the entry is absent.
    ///
    /// `WrongKind` where the slot is not there or holds no pool, else `UnmappedByte` where the pool has no such entry, or its entries have no such
    /// byte.
    #[inline(always)]
    pub fn peek(
        self,
        slots: &Slots,
        place: OperandSlot,
        index: u32,
        offset: u32,
    ) -> Result<u32, Wrong>
        requires place { IsTrue (is_slot place) }
        requires acting { IsActor slots.now self }
        ensures step { (f : Frame) (d : Doing) (rest : List ℕ) → IsBy d self → d.world ≡ world_seen f slots.now
            → d.leaf.operands ≡ offset ∷ index ∷ rest → memory.peek d place ≡ read d rest result }
    {
        let Some((slot_id, size, count)) = self.pool(slots, place) else {
            return Err(Wrong::WrongKind);
        };
        if index >= count {
            return Err(Wrong::UnmappedByte);
        }
        if offset >= size {
            return Err(Wrong::UnmappedByte);
        }
        Ok(u32::from(slots.peek(slot_id, index, offset)))
    }

    /// Sets the byte of an entry of a pool to the lowest byte of a number; where the entry is absent nothing changes. Wrong as in `peek`; then nothing
    /// changes.
    #[inline(always)]
    pub fn poke(
        self,
        slots: &mut Slots,
        place: OperandSlot,
        index: u32,
        offset: u32,
        value: u32,
    ) -> Result<(), Wrong>
        requires place { IsTrue (is_slot place) }
        requires acting { IsActor slots.old self }
        ensures step { (f : Frame) (d : Doing) (rest : List ℕ) → IsBy d self → standing d (with_operands d rest) ≡ world_seen f slots.old
            → d.leaf.operands ≡ value ∷ offset ∷ index ∷ rest → memory.poke d place ≡ done result (world_seen f slots.new) }
        ensures leaves { LeavesRest result slots.old slots.new }
    {
        let Some((slot_id, size, count)) = self.pool(slots, place) else {
            return Err(Wrong::WrongKind);
        };
        if index >= count {
            return Err(Wrong::UnmappedByte);
        }
        if offset >= size {
            return Err(Wrong::UnmappedByte);
        }
        slots.poke(slot_id, index, offset, (value % 256) as u8);
        Ok(())
    }

    /// Removes an entry of a pool, and says whether it did: not where it was absent. `WrongKind` as in `peek`, else `UnmappedByte` where the pool has no
    /// such entry; then nothing changes.
    #[inline(always)]
    pub fn give(self, slots: &mut Slots, place: OperandSlot, index: u32) -> Result<bool, Wrong>
        requires place { IsTrue (is_slot place) }
        requires acting { IsActor slots.old self }
        ensures step { (f : ℕ → Frame) (d : Doing) (rest : List ℕ) → IsBy d self → Pushes d rest f slots.old
            → memory.give_entry d rest place index ≡ reported f slots.new result }
        ensures leaves { LeavesRest result slots.old slots.new }
    {
        let Some((slot_id, _size, count)) = self.pool(slots, place) else {
            return Err(Wrong::WrongKind);
        };
        if index >= count {
            return Err(Wrong::UnmappedByte);
        }
        Ok(slots.give(slot_id, index))
    }
}
