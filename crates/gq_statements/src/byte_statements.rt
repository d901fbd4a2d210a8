// Statements that read and write bytes.
ghost use Rattle.std.specs.Prelude.{◌≡◌, ◌+◌, ◌<◌, ◌∷◌, List, ℕ, nat_le, IfSome, IsTrue, Ok, Option, Some, None};
ghost use Rattle.gq_model.specs.machine.Doing.{Doing, standing, with_operands};
ghost use Rattle.gq_model.specs.machine.Memory as memory;
ghost use Rattle.gq_model.specs.texts.Operands.{is_slot_or_object};
ghost use Rattle.gq_store.specs.declared.extent.Extent.{Extent};
ghost use Rattle.gq_slots.specs.Slots.{Frame, IsExtent, world_seen};
ghost use Rattle.gq_slots.specs.Slot_addresses.{AreBuffers};
ghost use Rattle.gq_statements.specs.Slot_statements.{IsActor, IsBy, LeavesRest, done, read};
ghost use Rattle.gq_model.specs.machine.Program.{bytes_of};
ghost use Rattle.gq_statements.specs.internal.Found.{IsFound};

use crate::actor::Actor;
use gq_model::fault::Wrong;
use gq_model::program::{OperandSlot, Width};
use gq_slots::{Addresses, Slots};
use gq_store::Extent;
use gq_trade::SlotId;

impl Actor {
    // Where the bytes lie that a statement names. `None` where it names none.
    #[inline(always)]
    fn extent(self, addresses: &Addresses, slots: &Slots, place: OperandSlot) -> Option<Extent>
        requires place { IsTrue (is_slot_or_object place) }
        requires actor { IsActor slots.now self }
        ensures is { IfSome result (λ e. IsExtent slots.now e) }
        ensures found { (f : Frame) (d : Doing) → IsBy d self → AreBuffers d.system f slots.now addresses.now
            → IsFound d (world_seen f slots.now) place slots.now result }
    {
        slots.laws();
        addresses.laws(slots);
        let named = self.slot_id(place)?;
        addresses.extent(slots, named)
    }

    /// Reads a byte or a word, from an index of the bytes in a slot on, the least byte first.
    ///
    /// `WrongKind` where the slot is not there or holds no bytes, and no buffer that it leads to does; else `UnmappedByte` where not all that is read
    /// is among them.
    #[inline(always)]
    pub fn load(
        self,
        addresses: &Addresses,
        slots: &Slots,
        width: Width,
        place: OperandSlot,
        index: u32,
    ) -> Result<u32, Wrong>
        requires place { IsTrue (is_slot_or_object place) }
        requires acting { IsActor slots.now self }
        ensures step { (f : Frame) (d : Doing) (rest : List ℕ) → IsBy d self → AreBuffers d.system f slots.now addresses.now → d.world ≡ world_seen f slots.now
            → d.leaf.operands ≡ index ∷ rest → memory.load d width place ≡ read d rest result }
    {
        let Some(extent) = self.extent(addresses, slots, place) else {
            return Err(Wrong::WrongKind);
        };
        // Where the width is known, bounds and access need no further branch on it.
        match width {
            Width::Byte => read_inside(slots, extent, Width::Byte, index),
            Width::Word => read_inside(slots, extent, Width::Word, index),
        }
    }

    /// Writes a byte of a number, or all four as a word, to an index of the bytes in a slot, the least byte first. Wrong as in `load`; then nothing
    /// changes.
    #[inline(always)]
    pub fn store(
        self,
        addresses: &Addresses,
        slots: &mut Slots,
        width: Width,
        place: OperandSlot,
        index: u32,
        value: u32,
    ) -> Result<(), Wrong>
        requires place { IsTrue (is_slot_or_object place) }
        requires acting { IsActor slots.old self }
        ensures step { (f : Frame) (d : Doing) (rest : List ℕ) → IsBy d self → AreBuffers d.system f slots.old addresses.now
            → standing d (with_operands d rest) ≡ world_seen f slots.old → d.leaf.operands ≡ value ∷ index ∷ rest
            → memory.store d width place ≡ done result (world_seen f slots.new) }
        ensures leaves { LeavesRest result slots.old slots.new }
    {
        let Some(extent) = self.extent(addresses, slots, place) else {
            return Err(Wrong::WrongKind);
        };
        match width {
            Width::Byte => write_inside(slots, extent, Width::Byte, index, value),
            Width::Word => write_inside(slots, extent, Width::Word, index, value),
        }
    }
}

// Reads a byte or a word of the bytes that lie there, from an index on. `UnmappedByte` where not all that is read is among them.
#[inline(always)]
fn read_inside(slots: &Slots, extent: Extent, width: Width, index: u32) -> Result<u32, Wrong>
    requires { IsExtent slots.now extent }
    ensures { (f : Frame) (d : Doing) (place : OperandSlot) (rest : List ℕ) → IsFound d (world_seen f slots.now) place slots.now (Some extent)
        → d.world ≡ world_seen f slots.now → d.leaf.operands ≡ index ∷ rest → memory.load d width place ≡ read d rest result }
{
    if !is_inside(width, index, extent.length) {
        return Err(Wrong::UnmappedByte);
    }
    Ok(slots.read(extent, width, index))
}

// Writes a byte of a number, or all four as a word, to an index of the bytes that lie there. `UnmappedByte` as in `read_inside`; then nothing changes.
#[inline(always)]
fn write_inside(
    slots: &mut Slots,
    extent: Extent,
    width: Width,
    index: u32,
    value: u32,
) -> Result<(), Wrong>
    requires { IsExtent slots.old extent }
    ensures step { (f : Frame) (d : Doing) (place : OperandSlot) (rest : List ℕ) → IsFound d (world_seen f slots.old) place slots.old (Some extent)
        → standing d (with_operands d rest) ≡ world_seen f slots.old → d.leaf.operands ≡ value ∷ index ∷ rest
        → memory.store d width place ≡ done result (world_seen f slots.new) }
    ensures leaves { LeavesRest result slots.old slots.new }
{
    if !is_inside(width, index, extent.length) {
        return Err(Wrong::UnmappedByte);
    }
    slots.write(extent, width, index, value);
    Ok(())
}

// Whether the bytes of a width from an index on are among so many.
#[inline(always)]
fn is_inside(width: Width, index: u32, count: u64) -> bool
    ensures { result ≡ nat_le (index + bytes_of width) count }
{
    let bytes = match width {
        Width::Byte => 1,
        Width::Word => 4,
    };
    u64::from(index) + bytes <= count
}
