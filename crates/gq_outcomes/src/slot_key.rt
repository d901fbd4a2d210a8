// What slots hold, as bytes of a key.
ghost use Rattle.std.specs.Prelude.{◌≡◌, ◌<◌, ◌≤◌, ◌+◌, ◌++◌, ◌∷◌, if◌then◌else◌, ℕ, List, Some, OnOk, IfOk, length, option_map};
ghost use Rattle.gq_machine.specs.Readers.{HasSlotId, entry_at, entry_count, entry_size, holding_of};
ghost use Rattle.gq_machine.specs.declared.world_reads.Holding.TheVariants as holding;
ghost use Rattle.gq_model.specs.machine.World.{slot_at};
ghost use Rattle.gq_trade.specs.Seen_sessions.{slot_id_seen};
ghost use Rattle.gq_outcomes.specs.Same.{place_of};
ghost use Rattle.gq_outcomes.specs.internal.Keys as keys;
ghost use Rattle.gq_outcomes.specs.internal.Keys.{bytes_key, list_key, number_key, option_key, text_key};
ghost use Rattle.gq_outcomes.specs.internal.Key_parts.{entries_in, entry_bytes, kept_slot_key, memory_in, slot_in};

use crate::encoding::{push_byte, push_number};
use crate::statement_key::form_tag;
use gq_machine::machine::Machine;
use gq_machine::world_reads::Holding;
use gq_model::program::Form;
use gq_trade::SlotId;
use std::alloc::AllocError;

/// The place of a session in an order, or how many there are.
pub(crate) fn place_of(order: &[usize], session: usize) -> usize
    ensures { result ≡ place_of session order.now }
{
    for place in 0..order.len() {
        if order[place] == session {
            return place;
        }
    }
    order.len()
}

// MEMORY

// Puts a byte that is not 0, behind how many there are that are 0. Returns how many are 0 behind it, or with it.
fn push_after_zeros(key: &mut Vec<u8>, zeros: u64, byte: u32) -> Result<u64, AllocError>
    requires { zeros < 4294967296 }
    ensures few { IfOk result (λ n. n ≤ zeros + 1) }
    ensures key { IfOk result (λ n. (bytes : List ℕ) → key.new.items ++ bytes_key n bytes ≡ key.old.items ++ bytes_key zeros (byte ∷ bytes)) }
{
    if byte == 0 {
        return Ok(zeros + 1);
    }
    push_number(key, zeros)?;
    push_number(key, u64::from(byte))?;
    Ok(0)
}

// Puts the bytes of memory in a slot: each that is not 0 behind the number of those before it that are, and how many there are at the end.
fn push_bytes(machine: &Machine, key: &mut Vec<u8>, slot_id: SlotId) -> Result<(), AllocError>
    requires { HasSlotId machine.now slot_id }
    ensures { OnOk result (key.new.items ≡ key.old.items ++ bytes_key 0 (memory_in (slot_in machine.now slot_id))) }
{
    let mut zeros = 0;
    for index in 0..machine.size(slot_id) {
        zeros = push_after_zeros(key, zeros, machine.byte(slot_id, index as u32))?;
    }
    push_number(key, zeros)?;
    push_byte(key, 0)
}

// Puts memory of this form and size in a slot.
fn push_memory(
    machine: &Machine,
    key: &mut Vec<u8>,
    slot_id: SlotId,
    form: Form,
    size: u32,
) -> Result<(), AllocError>
    requires { HasSlotId machine.now slot_id }
    ensures { OnOk result (key.new.items ≡ key.old.items
        ++ 1 ∷ keys.form_tag form ∷ (number_key size ++ bytes_key 0 (memory_in (slot_in machine.now slot_id)))) }
{
    push_byte(key, 1)?;
    push_byte(key, form_tag(form))?;
    push_number(key, u64::from(size))?;
    push_bytes(machine, key, slot_id)
}

// POOLS

// Puts the bytes of an entry that is there.
fn push_entry_bytes(
    machine: &Machine,
    key: &mut Vec<u8>,
    slot_id: SlotId,
    index: u32,
    size: u32,
) -> Result<(), AllocError>
    requires there { HasSlotId machine.now slot_id }
    requires inside { index < entry_count (slot_at machine.now.world (slot_id_seen slot_id)) }
    requires size { size ≡ entry_size (slot_at machine.now.world (slot_id_seen slot_id)) }
    requires long { size ≡ length (entry_bytes (entry_at index (slot_at machine.now.world (slot_id_seen slot_id)))) }
    ensures { OnOk result (key.new.items ≡ key.old.items ++ text_key (entry_bytes (entry_at index (slot_at machine.now.world (slot_id_seen slot_id))))) }
{
    push_number(key, u64::from(size))?;
    for offset in 0..size {
        push_number(key, u64::from(machine.entry_byte(slot_id, index, offset)))?;
    }
    Ok(())
}

// Puts an entry, or that it is absent.
fn push_entry(
    machine: &Machine,
    key: &mut Vec<u8>,
    slot_id: SlotId,
    index: u32,
    size: u32,
) -> Result<(), AllocError>
    requires there { HasSlotId machine.now slot_id }
    requires inside { index < entry_count (slot_at machine.now.world (slot_id_seen slot_id)) }
    requires size { size ≡ entry_size (slot_at machine.now.world (slot_id_seen slot_id)) }
    ensures { OnOk result (key.new.items ≡ key.old.items ++ option_key text_key (entry_at index (slot_at machine.now.world (slot_id_seen slot_id)))) }
{
    machine.entry_laws(slot_id, index);
    if !machine.has_entry(slot_id, index) {
        return push_byte(key, 0);
    }
    push_byte(key, 1)?;
    push_entry_bytes(machine, key, slot_id, index, size)
}

// Puts the entries of a pool in a slot.
fn push_entries(
    machine: &Machine,
    key: &mut Vec<u8>,
    slot_id: SlotId,
    size: u32,
    count: u32,
) -> Result<(), AllocError>
    requires there { HasSlotId machine.now slot_id }
    requires count { count ≡ entry_count (slot_at machine.now.world (slot_id_seen slot_id)) }
    requires size { size ≡ entry_size (slot_at machine.now.world (slot_id_seen slot_id)) }
    ensures { OnOk result (key.new.items ≡ key.old.items ++ list_key (option_key text_key) (entries_in (slot_in machine.now slot_id))) }
{
    push_number(key, u64::from(count))?;
    for index in 0..count {
        push_entry(machine, key, slot_id, index, size)?;
    }
    Ok(())
}

// Puts a pool in a slot, of so many entries of this size.
fn push_pool(
    machine: &Machine,
    key: &mut Vec<u8>,
    slot_id: SlotId,
    size: u32,
    count: u32,
) -> Result<(), AllocError>
    requires there { HasSlotId machine.now slot_id }
    requires count { count ≡ entry_count (slot_at machine.now.world (slot_id_seen slot_id)) }
    requires size { size ≡ entry_size (slot_at machine.now.world (slot_id_seen slot_id)) }
    ensures { OnOk result (key.new.items ≡ key.old.items
        ++ 2 ∷ (number_key size ++ list_key (option_key text_key) (entries_in (slot_in machine.now slot_id)))) }
{
    push_byte(key, 2)?;
    push_number(key, u64::from(size))?;
    push_entries(machine, key, slot_id, size, count)
}

// SLOTS

// The number of a slot that names a session: whether a reply of it is awaited.
fn named_tag(awaits: bool) -> u8
    ensures { result ≡ (if awaits then 4 else 3) }
{
    if awaits { 4 } else { 3 }
}

// Puts a session that a slot names: whether a reply of it is awaited, and its place in this order.
fn push_named(
    machine: &Machine,
    key: &mut Vec<u8>,
    order: &[usize],
    slot_id: SlotId,
    session: usize,
) -> Result<(), AllocError>
    requires there { HasSlotId machine.now slot_id }
    requires named { option_map holding_of (slot_at machine.now.world (slot_id_seen slot_id)) ≡ Some (holding.Session session) }
    ensures { OnOk result (key.new.items ≡ key.old.items ++ kept_slot_key order.now (slot_in machine.now slot_id)) }
{
    push_byte(key, named_tag(machine.awaits(slot_id)))?;
    push_number(key, place_of(order, session) as u64)
}

/// Puts what a slot holds. A session goes by its place in this order. Refused only if the host refuses memory.
pub(crate) fn push_slot(
    machine: &Machine,
    key: &mut Vec<u8>,
    order: &[usize],
    slot_id: SlotId,
) -> Result<(), AllocError>
    requires { HasSlotId machine.now slot_id }
    ensures { OnOk result (key.new.items ≡ key.old.items ++ kept_slot_key order.now (slot_in machine.now slot_id)) }
{
    match machine.holding(slot_id) {
        Holding::Nothing => push_byte(key, 0),
        Holding::Bytes(form, size) => push_memory(machine, key, slot_id, form, size),
        Holding::Pool(size, count) => push_pool(machine, key, slot_id, size, count),
        Holding::Session(session) => push_named(machine, key, order, slot_id, session),
    }
}
