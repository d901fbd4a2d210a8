// Who is paid for in the machine's world of lawful slots.
ghost use Rattle.std.specs.Prelude.{◌≡◌, ℕ, ◌+◌, ◌<◌, true, false, length, replicate, slice_get, Some, None};
ghost use Rattle.gq_model.specs.declared.program.Form.TheVariants as form;
ghost use Rattle.gq_model.specs.machine.Amounts.{Resource, Ram, Caps, part};
ghost use Rattle.gq_model.specs.machine.Scenario.{System, Component};
ghost use Rattle.gq_model.specs.machine.World as world;
ghost use Rattle.gq_model.specs.machine.Sums.{handed, held, lent, paid, received, slot_price};
ghost use Rattle.gq_heap.specs.declared.heap.Heap.{Heap};
ghost use Rattle.gq_heap.specs.Heap.{rise};
ghost use Rattle.gq_contents.specs.declared.content.Content.TheVariants as content;
ghost use Rattle.gq_contents.specs.Contents.{added, entry_count, entry_in, entry_size, with_entry};
ghost use Rattle.gq_trade.specs.declared.session.SlotId.{SlotId};
ghost use Rattle.gq_trade.specs.Seen_sessions.{slot_id_seen};
ghost use Rattle.gq_trade.specs.Trading.{its_account};
ghost use Rattle.gq_slots.specs.Slots.{Frame, IsHeapOf, IsSlot, IsSlotId, Slots as Seen, holder, settled_in, slot_of, content_at, world_seen};
ghost use Rattle.gq_statements.specs.Among.{IsAmong};
ghost use Rattle.gq_statements.specs.Systems.{AreLawful, IsOf, Lacks};

use gq_slots::Slots;

/// What holds of slots between two calls. It does nothing.
pub fn lawful(slots: &Slots)
    ensures { AreLawful slots.now }
{
    slots.laws();
    slots.trades().laws();
    slots.trades().accounts().laws();
}

/// In the machine's world of lawful slots every leaf is paid for. What a leaf was handed and has received there is the quota of its account and what it has
/// lent, of bytes and of capabilities.
pub fn lawful_is_paid()
    ensures ram { (system : System) (f : Frame) (s : Seen) (x : ℕ) (c : Component) → AreLawful s → x < length s.own
        → slice_get system.components x ≡ Some c → IsOf system f s
        → handed (f.leaf x).phase c.node.quantum.ram + received Ram (world_seen f s) x
        ≡ (its_account s.trades.trading x).quota.ram + lent Ram (world_seen f s) x }
    ensures caps { (system : System) (f : Frame) (s : Seen) (x : ℕ) (c : Component) → AreLawful s → x < length s.own
        → slice_get system.components x ≡ Some c → IsOf system f s
        → handed (f.leaf x).phase c.node.quantum.caps + received Caps (world_seen f s) x
        ≡ (its_account s.trades.trading x).quota.caps + lent Caps (world_seen f s) x }
    ensures paid { (system : System) (f : Frame) (s : Seen) → AreLawful s → IsOf system f s → paid system (world_seen f s) ≡ true }
{}

/// What is not paid for. A world in which a leaf holds and has lent more of a counted resource than it was handed and has received. So also the machine's world
/// of lawful slots with something in an empty slot whose price the leaf that pays for the slot lacks. So also one with a block, or with an entry of a pool, by
/// which the price of that leaf's heap would rise by more than it has.
pub fn lacking_is_unpaid()
    ensures world { (system : System) (w : world.World) (x : ℕ) (c : Component) (leaf : world.Leaf) (r : Resource) → slice_get system.components x ≡ Some c
        → slice_get w.leaves x ≡ Some leaf → IsAmong r system.counted
        → handed leaf.phase (part r c.node.quantum) + received r w x < held r w x leaf + lent r w x → paid system w ≡ false }
    ensures made { (system : System) (f : Frame) (s : Seen) (p : SlotId) (slot : world.Slot) → AreLawful s → IsOf system f s → IsSlotId s p → IsSlot p
        → content_at s p ≡ content.Empty → holder s p < length s.own → (r : Resource) → Lacks r s (holder s p) (slot_price r slot)
        → paid system (settled_in (holder s p) (world.with_slot (world_seen f s) (slot_id_seen p) slot)) ≡ false }
    ensures block { (system : System) (f : Frame) (s : Seen) (p : SlotId) (h : Heap) (n : ℕ) → AreLawful s → IsOf system f s → IsSlotId s p → IsSlot p
        → content_at s p ≡ content.Empty → holder s p < length s.own → IsHeapOf s (holder s p) h → (r : Resource) → Lacks r s (holder s p) (rise h n)
        → paid system (settled_in (holder s p) (world.with_slot (world_seen f s) (slot_id_seen p) (world.Bytes form.Block n (replicate n 0)))) ≡ false }
    ensures entry { (system : System) (f : Frame) (s : Seen) (p : SlotId) (h : Heap) (i : ℕ) → AreLawful s → IsOf system f s → IsSlotId s p → IsSlot p
        → i < entry_count (content_at s p) → entry_in i (slot_of s p) ≡ None → holder s p < length s.own → IsHeapOf s (holder s p) h
        → (r : Resource) → Lacks r s (holder s p) (rise h (entry_size (content_at s p)))
        → paid system (settled_in (holder s p) (world.with_slot (world_seen f s) (slot_id_seen p) (with_entry i added (slot_of s p)))) ≡ false }
{}
