// The bytes at the addresses of a leaf: where they lie, and reading and writing there.
ghost use Rattle.std.specs.Prelude.{◌≡◌, ◌+◌, ◌*◌, ◌<◌, ◌≤◌, nat_le, length, is_some, IfNone, IfSome, IsTrue};
ghost use Rattle.gq_model.specs.machine.Program.{bytes_of, spelled};
ghost use Rattle.gq_model.specs.machine.Scenario.{System};
ghost use Rattle.gq_contents.specs.Contents.{put_in};
ghost use Rattle.gq_trade.specs.Trades.{IsLive};
ghost use Rattle.gq_slots.specs.Slots.{Frame, IsExtent, slot_of, world_seen};
ghost use Rattle.gq_slots.specs.Calls.{PutsSlot};
ghost use Rattle.gq_slots.specs.Slot_addresses.{AreBuffers};
ghost use Rattle.gq_region.specs.Region_addresses.{AreFound, Lies, bytes_at, bytes_under, number_in, number_of, offset, put_under, slot_under};

use gq_model::program::Width;
use gq_slots::{Addresses, Slots};
use gq_store::Extent;
use gq_trade::SlotId;

// The addresses of a slot, as many as the most bytes that one can have.
const WINDOW: u32 = 67_108_864;

/// The first address of the window of a slot.
pub fn base(slot: u8) -> u32
    requires { slot < 64 }
    ensures { result ≡ slot * 67108864 }
{
    u32::from(slot) * WINDOW
}

// Where so many bytes from an address of a leaf on lie, and the index of the first among them. `None` where the bytes of the slot stand nowhere, or are too
// few.
#[inline(always)]
fn find(
    addresses: &Addresses,
    slots: &Slots,
    leaf: usize,
    address: u32,
    width: Width,
) -> Option<(Extent, u32)>
    requires leaf { leaf < length slots.now.own }
    ensures is { IfSome result (λ f. IsExtent slots.now f.0) }
    ensures inside { IfSome result (λ f. f.1 + bytes_of width ≤ f.0.length) }
    ensures lies { Lies slots.now (bytes_at addresses.now slots.now leaf address (bytes_of width)) result }
    ensures world { (f : Frame) (system : System) → AreBuffers system f slots.now addresses.now
        → AreFound system (world_seen f slots.now) slots.now (slot_under leaf address) (offset address) (bytes_of width)
        (bytes_at addresses.now slots.now leaf address (bytes_of width)) }
{
    slots.laws();
    addresses.laws(slots);
    let slot = (address / WINDOW) as u8;
    let index = address % WINDOW;
    let extent = addresses.extent(slots, SlotId::InLeaf(leaf, slot))?;
    if u64::from(index) + count_of(width) <= extent.length {
        Some((extent, index))
    } else {
        None
    }
}

// How many bytes a width has.
#[inline(always)]
fn count_of(width: Width) -> u64
    ensures { result ≡ bytes_of width }
{
    match width {
        Width::Byte => 1,
        Width::Word => 4,
    }
}

/// The byte at an address of a leaf, or the number in the four bytes from there on, the least byte first. `None` where not all of them lie in one slot.
pub fn load(
    addresses: &Addresses,
    slots: &Slots,
    leaf: usize,
    width: Width,
    address: u32,
) -> Option<u32>
    requires live { IsLive slots.now.trades leaf }
    ensures number { result ≡ number_of slots.now width (bytes_at addresses.now slots.now leaf address (bytes_of width)) }
    ensures world { (f : Frame) (system : System) → AreBuffers system f slots.now addresses.now
        → result ≡ number_in (bytes_under system (world_seen f slots.now) leaf address) width (offset address) }
{
    slots.laws();
    match find(addresses, slots, leaf, address, width) {
        None => None,
        Some((extent, index)) => Some(slots.read(extent, width, index)),
    }
}

/// Writes a byte of a number to an address of a leaf, or all four from there on, the least byte first, and says whether all of them lie in one slot; else
/// nothing changes.
pub fn store(
    addresses: &Addresses,
    slots: &mut Slots,
    leaf: usize,
    width: Width,
    address: u32,
    value: u32,
) -> bool
    requires live { IsLive slots.old.trades leaf }
    ensures there { result ≡ is_some (bytes_at addresses.now slots.old leaf address (bytes_of width)) }
    ensures stored { IfSome (bytes_at addresses.now slots.old leaf address (bytes_of width))
        (λ f. PutsSlot slots.old slots.new f.0 (put_in f.1 (spelled (bytes_of width) value) (slot_of slots.old f.0))) }
    ensures unchanged { IfNone (bytes_at addresses.now slots.old leaf address (bytes_of width)) (slots.new ≡ slots.old) }
    ensures fits { (f : Frame) (system : System) → AreBuffers system f slots.old addresses.now
        → result ≡ nat_le (offset address + bytes_of width) (length (bytes_under system (world_seen f slots.old) leaf address)) }
    ensures world { (f : Frame) (system : System) → AreBuffers system f slots.old addresses.now
        → IsTrue result → world_seen f slots.new ≡ put_under system (world_seen f slots.old) leaf address (spelled (bytes_of width) value) }
{
    slots.laws();
    match find(addresses, slots, leaf, address, width) {
        None => false,
        Some((extent, index)) => {
            slots.write(extent, width, index, value);
            true
        }
    }
}
