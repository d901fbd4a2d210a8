// What is read of a machine to report its worlds apart: registers, code, requests, and the bytes and entries of slots.
ghost use Rattle.std.specs.Prelude.{◌≡◌, ◌<◌, ◌≤◌, ◌↔◌, Some, None, false, length, map, option_map, slice_get, IfSome};
ghost use Rattle.gq_model.specs.machine.Memory.{entry_byte};
ghost use Rattle.gq_model.specs.machine.Scenario.{Component, components};
ghost use Rattle.gq_model.specs.machine.World as world;
ghost use Rattle.gq_store.specs.Store.{Store};
ghost use Rattle.gq_contents.specs.Contents.{seen};
ghost use Rattle.gq_trade.specs.Seen_sessions.{slot_id_seen};
ghost use Rattle.gq_trade.specs.Seen_requests.{request_seen};
ghost use Rattle.gq_machine.specs.Readers.{HasByte, HasEntry, HasEntryByte, HasSlotId, StandsAt, awaits, byte_at, byte_count, entry_at, entry_size};

use crate::machine::Machine;
use gq_bytecode::Registers;
use gq_contents::Content;
use gq_model::program::Width;
use gq_scenario::scenario::LeafNo;
use gq_statements::paid_laws::lawful;
use gq_trade::{Request, Session, SlotId};

// Whether a content is the mark of a session whose reply is awaited.
fn awaits(content: Content) -> bool
    ensures { (st : Store) → result ≡ awaits (seen st content) }
{
    matches!(content, Content::Waiting(_))
}

// The slot in which a session stands.
fn stands_in(session: &Session) -> SlotId
    ensures { result ≡ session.now.slot_id }
{
    session.slot_id
}

impl Machine {
    /// How far a leaf has come in the code of its section.
    pub fn registers(&self, leaf: LeafNo) -> &Registers
        requires { leaf < length (components self.now.scenario) }
        ensures { (c : Component) → slice_get (components self.now.scenario) leaf ≡ Some c
            → IfSome (slice_get self.now.world.leaves leaf) (λ l. StandsAt c l result.now) }
    {
        self.state.leaves[leaf.index()].registers()
    }

    /// The requests that wait, the oldest first.
    pub fn requests(&self) -> &[Request]
        ensures { map request_seen result.now ≡ self.now.world.requests }
    {
        self.state.slots.trades().requests()
    }

    /// Whether a slot is one of a session whose reply is awaited.
    pub fn awaits(&self, slot_id: SlotId) -> bool
        requires { HasSlotId self.now slot_id }
        ensures { option_map awaits (world.slot_at self.now.world (slot_id_seen slot_id)) ≡ Some result }
    {
        lawful(&self.state.slots);
        awaits(self.state.slots.content(slot_id))
    }

    /// The slot in which a session stands, if there is such a session.
    pub fn slot_of(&self, session: usize) -> Option<SlotId>
        ensures { option_map slot_id_seen result ≡ option_map (λ (s : world.Session). s.slot_id) (world.session_at self.now.world session) }
    {
        match self.state.slots.trades().find_session(session) {
            Some(found) => Some(stands_in(found)),
            None => None,
        }
    }

    /// How many bytes of memory a block, a slice or a space in a slot has; 0 of any other slot.
    pub fn size(&self, slot_id: SlotId) -> u64
        requires { HasSlotId self.now slot_id }
        ensures size { result ≡ byte_count (world.slot_at self.now.world (slot_id_seen slot_id)) }
        ensures small { result ≤ 4294967296 }
    {
        lawful(&self.state.slots);
        let content = self.state.slots.content(slot_id);
        content.size()
    }

    /// A byte of a block, a slice or a space.
    pub fn byte(&self, slot_id: SlotId, index: u32) -> u32
        requires there { HasSlotId self.now slot_id }
        requires inside { HasByte self.now slot_id index }
        ensures { byte_at index (world.slot_at self.now.world (slot_id_seen slot_id)) ≡ Some result }
    {
        lawful(&self.state.slots);
        match self.state.slots.extent(slot_id) {
            Some(extent) => self.state.slots.read(extent, Width::Byte, index),
            None => unreachable!(),
        }
    }

    /// Whether an entry of a pool is there.
    pub fn has_entry(&self, slot_id: SlotId, index: u32) -> bool
        requires there { HasSlotId self.now slot_id }
        requires inside { HasEntry self.now slot_id index }
        ensures { (result ≡ false) ↔ (entry_at index (world.slot_at self.now.world (slot_id_seen slot_id)) ≡ None) }
    {
        lawful(&self.state.slots);
        self.state.slots.has_entry(slot_id, index)
    }

    /// What every entry of a pool is: one that is there has as many bytes as an entry of that pool has. It does nothing.
    pub fn entry_laws(&self, slot_id: SlotId, index: u32)
        requires { HasSlotId self.now slot_id }
        ensures { IfSome (entry_at index (world.slot_at self.now.world (slot_id_seen slot_id)))
            (λ bytes. length bytes ≡ entry_size (world.slot_at self.now.world (slot_id_seen slot_id))) }
    {
        lawful(&self.state.slots);
    }

    /// A byte of an entry of a pool, 0 if the entry is absent.
    pub fn entry_byte(&self, slot_id: SlotId, index: u32, offset: u32) -> u8
        requires there { HasSlotId self.now slot_id }
        requires inside { HasEntryByte self.now slot_id index offset }
        ensures { result ≡ entry_byte (entry_at index (world.slot_at self.now.world (slot_id_seen slot_id))) offset }
    {
        lawful(&self.state.slots);
        self.state.slots.peek(slot_id, index, offset)
    }
}
