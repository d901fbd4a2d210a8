// Where the bytes of a slot lie: in the slot itself, or, behind a link, in the buffer of its session. A statement names a slot and an index, so the machine
// goes there at once; bytes by their addresses are a matter of gq_region.
ghost use Rattle.std.specs.Prelude.{◌≡◌, ℕ, get_or, IfSome};
ghost use Rattle.gq_model.specs.machine.Scenario.{System};
ghost use Rattle.gq_model.specs.machine.Memory.{bytes_slot_id};
ghost use Rattle.gq_model.specs.machine.World.{slot_at};
ghost use Rattle.gq_trade.specs.Seen_sessions.{slot_id_seen};
ghost use Rattle.gq_slots.specs.Slots.{Frame, IsSlotId, world_seen};
ghost use Rattle.gq_slots.specs.Slot_addresses.{AreBuffers, buffer_slot_id, extent_at, place_of, place_seen};

use crate::slots::Slots;
use gq_contents::Content;
use gq_store::Extent;
use gq_trade::SlotId;
use std::marker::Model;

/// The bytes of the buffer of each service, by its number, 0 where it shares none.
///
/// Behind a link stand the bytes of the first slot of its session, where the session's service shares a buffer; in any other slot stand its own.
#[derive(Drop)]
pub struct Addresses {
    buffers: Vec<u32>,
}

impl Model for Addresses {
    ghost use Rattle.std.specs.Prelude.{List, ℕ};

    ghost Value = { List ℕ };

    ghost view = { λ a. a.buffers.items };
}

impl Addresses {
    /// Addresses where the buffers of the services have so many bytes.
    pub fn new(buffers: Vec<u32>) -> Addresses
        ensures { result ≡ buffers.items }
    {
        Addresses { buffers }
    }

    /// What holds of the place that the definitions give to the bytes of a slot. It does nothing.
    ///
    /// - The place is a slot that there is, or there is none.
    /// - It is the one that the abstract machine gives.
    pub fn laws(&self, slots: &Slots)
        ensures there { (p : SlotId) → IsSlotId slots.now p → IfSome (place_of self.now slots.now p) (λ q. IsSlotId slots.now q) }
        ensures world { (f : Frame) (system : System) (p : SlotId) → IsSlotId slots.now p → AreBuffers system f slots.now self.now
            → place_seen (place_of self.now slots.now p) ≡ bytes_slot_id system (world_seen f slots.now)
            (slot_at (world_seen f slots.now) (slot_id_seen p)) (slot_id_seen p) }
    {
        let _buffers = &self.buffers;
        slots.laws();
        slots.trades().laws();
    }

    /// Where the bytes of a slot lie: its own, or, where it is a link, those of the first slot of its session. `None` where there are none: the slot is empty,
    /// waits or has a pool, or the session behind the link is gone, shares no buffer, or has no bytes there.
    #[inline(always)]
    pub fn extent(&self, slots: &Slots, slot_id: SlotId) -> Option<Extent>
        requires { IsSlotId slots.now slot_id }
        ensures { result ≡ extent_at slots.now (place_of self.now slots.now slot_id) }
    {
        let content = slots.content(slot_id);
        match content {
            Content::Link(session) => self.linked(slots, session as usize),
            Content::Empty
            | Content::Block(_, _)
            | Content::Slice(_, _)
            | Content::Space(_, _)
            | Content::Pool(_)
            | Content::Waiting(_) => content.extent(),
        }
    }

    // What `buffer_extent` returns, in a variable of its own. Else the extents of other contents would stand in memory, where that call writes.
    #[inline(always)]
    fn linked(&self, slots: &Slots, session: usize) -> Option<Extent>
        ensures { result ≡ extent_at slots.now (buffer_slot_id self.now slots.now session) }
    {
        let behind = self.buffer_extent(slots, session)?;
        Some(behind)
    }

    // Where the bytes of the first slot of a session lie, if it is there and its service shares a buffer.
    #[inline(never)]
    fn buffer_extent(&self, slots: &Slots, session: usize) -> Option<Extent>
        ensures { result ≡ extent_at slots.now (buffer_slot_id self.now slots.now session) }
    {
        match slots.trades().find_session(session) {
            None => None,
            Some(found) => {
                if self.buffer(found.service) == 0 {
                    None
                } else {
                    slots.extent(SlotId::InSession(session, 0))
                }
            }
        }
    }

    /// The bytes of the buffer of a service, 0 where it shares none.
    pub fn buffer(&self, service: usize) -> u32
        ensures { result ≡ get_or self.now service 0 }
    {
        match self.buffers.get(service) {
            None => 0,
            Some(&size) => size,
        }
    }
}
