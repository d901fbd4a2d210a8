// What every slot of a scenario holds, in the memory of the leaf that pays for it.
ghost use Rattle.std.specs.Prelude.{◌≡◌, ◌+◌, ◌<◌, ◌≤◌, ◌*◌, ◌%◌, ◌↔◌, length, slice_range, replicate, Some, None};
ghost use Rattle.std.specs.Prelude.{false, IsTrue};
ghost use Rattle.std.specs.Prelude.{IfOk, IfSome, OnOk, OnErr, IsErrOf};
ghost use Rattle.gq_tariff.specs.Prices.{up};
ghost use Rattle.gq_model.specs.declared.program.Form.TheVariants as form;
ghost use Rattle.gq_model.specs.machine.Program.{bytes_of, little, spelled};
ghost use Rattle.gq_model.specs.machine.Memory.{entry_byte, entry_with};
ghost use Rattle.gq_model.specs.machine.World as world;
ghost use Rattle.gq_heap.specs.declared.heap.Heap.{Heap};
ghost use Rattle.gq_heap.specs.Heap.{peak_of, rise};
ghost use Rattle.gq_contents.specs.declared.content.Content.TheVariants as content;
ghost use Rattle.gq_contents.specs.Contents.{added, bytes_in, entry_count, entry_in, entry_size, extent_of, put_in, removed, seen, with_entry};
ghost use Rattle.gq_trade.specs.Seen_sessions.{slot_id_seen};
ghost use Rattle.gq_trade.specs.Numbers.{IsTaken};
ghost use Rattle.gq_trade.specs.Trading.{server_of};
ghost use Rattle.gq_trade.specs.declared.session.SlotId.TheVariants.{InLeaf, InObject, InSession};
ghost use Rattle.gq_trade.specs.Trades_plan.{IsFirst, IsPlan};
ghost use Rattle.gq_trade.specs.Trades.{IsTrades};
ghost use Rattle.gq_contents.specs.Paid.{IsPaidWhereLeft, IsRaisedWhereLeft};
ghost use Rattle.gq_slots.specs.Slots.{AreLong, AreNew, ArePaidFor, AreRead, AreRises, AreSmallEntries, AreSound, Frame, IsExtent, IsHeapOf, IsMark};
ghost use Rattle.gq_slots.specs.Slots.{CanMake, IsSlot, IsSlotId, holder, memory_of, slot_of, content_at, world_seen};
ghost use Rattle.gq_slots.specs.Calls.{PutsSlot, Settles};

use crate::slot_contents::{clear, fill, replace};
use gq_contents::{Content, read, write};
use gq_heap::Heap;
use gq_model::program::Width;
use gq_store::{Extent, GrowFault};
use gq_tariff::Class;
use gq_trade::{Plan, SlotId, Trades};
use std::alloc::{AllocError, Global};
use std::marker::Model;

/// All slots of a scenario: the 64 of each leaf, the 8 of each session, and the sessions' objects. What is in a leaf's slot, and in those of the sessions
/// to it, lies in memory that the leaf pays for. No call but `new` allocates host memory.
///
/// The modules of this crate on sessions and on the ends of leaves change the fields, too: each has to prove that what holds of all `Slots` still does.
#[derive(Drop)]
pub struct Slots {
    /// The sessions with the accounts.
    pub(crate) trades: Trades,
    /// The own slots of each leaf.
    pub(crate) own: Vec<[Content; 64]>,
    /// The heap of each leaf.
    pub(crate) heaps: Vec<Heap>,
}

impl Model for Slots {
    ghost use Rattle.gq_slots.specs.Slots.{Slots};
    ghost use Rattle.gq_slots.specs.internal.Slots_invariant.{IsSlots};

    ghost Value = { Slots };

    ghost view = { λ t. record { trades = t.trades; own = t.own.items; heaps = t.heaps.items } };

    ghost invariant = { λ t. IsSlots (record { trades = t.trades; own = t.own.items; heaps = t.heaps.items }) };
}

// The slots of so many leaves, all empty.
fn slots_of(alloc: Global, count: usize) -> Result<Vec<[Content; 64]>, AllocError>
    ensures { IfOk result (λ own. own.items ≡ replicate count (replicate 64 content.Empty)) }
{
    let mut own = Vec::new(alloc);
    for _ in 0..count {
        own.push([Content::Empty; 64])?;
    }
    Ok(own)
}

// A heap without a block for each of so many leaves.
fn heaps_of(alloc: Global, count: usize) -> Result<Vec<Heap>, AllocError>
    ensures { IfOk result (λ heaps. AreNew count heaps.items) }
{
    let mut heaps = Vec::new(alloc);
    for _ in 0..count {
        heaps.push(Heap::new())?;
    }
    Ok(heaps)
}

impl Slots {
    /// Empty slots for the leaves of a plan, over the accounts that `Trades::new` makes of it; no heap has a block. `Err` where the host refuses
    /// memory.
    pub fn new(
        alloc: Global,
        total: u64,
        caps: Option<u64>,
        plan: Plan,
        room: u32,
    ) -> Result<Slots, AllocError>
        requires total { (4096 ≤ total) × (total ≤ 67108864) }
        requires pages { total % 4096 ≡ 0 }
        requires caps { IfSome caps (λ n. (1 ≤ n) × (n ≤ 65536)) }
        requires plan { IsPlan total caps plan.parents.items plan.nodes.items plan.leaves.items plan.objects.items }
        ensures trades { IfOk result (λ s. IsFirst total caps plan.parents.items plan.nodes.items plan.leaves.items plan.objects.items room s.trades) }
        ensures own { IfOk result (λ s. s.own ≡ replicate (length plan.leaves.items) (replicate 64 content.Empty)) }
        ensures heaps { IfOk result (λ s. AreNew (length plan.leaves.items) s.heaps) }
    {
        let count = plan.leaves.len();
        let own = slots_of(alloc, count)?;
        let heaps = heaps_of(alloc, count)?;
        match Trades::new(alloc, total, caps, plan, room) {
            Ok(trades) => Ok(Slots { trades, own, heaps }),
            Err(refused) => Err(refused),
        }
    }

    /// The leaf that pays for what is in a slot: the leaf whose own it is, or the server of its session.
    #[inline(always)]
    pub fn holder(&self, slot_id: SlotId) -> usize
        requires { IsSlotId self.now slot_id }
        ensures is { result ≡ holder self.now slot_id }
        ensures there { result < length self.now.own }
    {
        let _own = &self.own;
        match slot_id {
            SlotId::InLeaf(leaf, _) => leaf,
            SlotId::InSession(session, _) | SlotId::InObject(session) => self.server(session),
        }
    }

    // The server of a session.
    #[inline(always)]
    fn server(&self, session: usize) -> usize
        requires { IsTaken self.now.trades.trading.sessions session }
        ensures is { result ≡ server_of self.now.trades.trading session }
        ensures there { result < length self.now.own }
    {
        let _own = &self.own;
        self.trades.laws();
        self.trades.session(session).server
    }

    /// What is in a slot. In the machine's world it is what `seen` says of it.
    #[inline(always)]
    pub fn content(&self, slot_id: SlotId) -> Content
        requires { IsSlotId self.now slot_id }
        ensures is { result ≡ content_at self.now slot_id }
        ensures reads { (f : Frame) → world.slot_at (world_seen f self.now) (slot_id_seen slot_id)
            ≡ Some (seen (memory_of self.now (holder self.now slot_id)) result) }
    {
        let _own = &self.own;
        self.found(slot_id)
    }

    // What is in a slot.
    #[inline(always)]
    fn found(&self, slot_id: SlotId) -> Content
        requires { IsSlotId self.now slot_id }
        ensures { result ≡ content_at self.now slot_id }
    {
        match slot_id {
            SlotId::InLeaf(leaf, slot) => self.own[leaf][usize::from(slot)],
            SlotId::InSession(session, slot) => self.trades.slot(session, usize::from(slot)),
            SlotId::InObject(session) => self.trades.session(session).object,
        }
    }

    /// Where the bytes of a slot lie: of a block, a slice or a space.
    #[inline(always)]
    pub fn extent(&self, slot_id: SlotId) -> Option<Extent>
        requires { IsSlotId self.now slot_id }
        ensures { result ≡ extent_of (content_at self.now slot_id) }
    {
        let _own = &self.own;
        self.found(slot_id).extent()
    }

    /// Reads a byte or a word of the slot whose bytes lie there, from an index on, the least byte first.
    #[inline(always)]
    pub fn read(&self, extent: Extent, width: Width, index: u32) -> u32
        requires there { IsExtent self.now extent }
        requires inside { index + bytes_of width ≤ extent.length }
        ensures { (p : SlotId) → IsSlotId self.now p → extent_of (content_at self.now p) ≡ Some extent
            → result ≡ little (slice_range (bytes_in (slot_of self.now p)) index (index + bytes_of width)) }
    {
        let _own = &self.own;
        self.trades.laws();
        read(&self.trades, extent, width, index)
    }

    /// Writes a byte of a number, or all four as a word, to the slot whose bytes lie there, at an index, the least byte first. Nothing else changes.
    #[inline(always)]
    pub fn write(&mut self, extent: Extent, width: Width, index: u32, value: u32)
        requires there { IsExtent self.old extent }
        requires inside { index + bytes_of width ≤ extent.length }
        ensures { (p : SlotId) → IsSlotId self.old p → extent_of (content_at self.old p) ≡ Some extent
            → PutsSlot self.old self.new p (put_in index (spelled (bytes_of width) value) (slot_of self.old p)) }
    {
        self.trades.laws();
        write(&mut self.trades, extent, width, index, value);
    }

    /// Makes a slice of `size` bytes in an empty slot, which read 0.
    ///
    /// Refused as `Exceeded` where the bytes of its pages can't be paid, else as `CapsExceeded` where there is no capability left; then nothing
    /// changes.
    pub fn make_slice(&mut self, slot_id: SlotId, size: u32) -> Result<(), GrowFault>
        requires can { CanMake self.old slot_id }
        requires size { size ≤ 67108864 }
        ensures made { OnOk result (Settles self.old self.new slot_id (world.Bytes form.Slice size (replicate size 0))) }
        ensures unchanged { OnErr result (self.new ≡ self.old) }
        ensures refused { IsPaidWhereLeft (memory_of self.old (holder self.old slot_id)) (up (size + 32)) result }
    {
        let holder = self.holder(slot_id);
        let _heap = &self.heaps[holder];
        self.trades.laws();
        let account = self.trades.leaf_account(holder);
        let made = Content::make_slice(&mut self.trades, account, size)?;
        fill(&mut self.trades, &mut self.own, slot_id, made);
        Ok(())
    }

    /// Makes a space of `size` bytes in whole pages in an empty slot, which read 0. Refused as a slice is.
    pub fn make_space(&mut self, slot_id: SlotId, size: u32) -> Result<(), GrowFault>
        requires can { CanMake self.old slot_id }
        requires size { (1 ≤ size) × (size ≤ 67108864) }
        ensures made { OnOk result (Settles self.old self.new slot_id (world.Bytes form.Space size (replicate (up size) 0))) }
        ensures unchanged { OnErr result (self.new ≡ self.old) }
        ensures refused { IsPaidWhereLeft (memory_of self.old (holder self.old slot_id)) (up size) result }
    {
        let holder = self.holder(slot_id);
        let _heap = &self.heaps[holder];
        self.trades.laws();
        let account = self.trades.leaf_account(holder);
        let made = Content::make_space(&mut self.trades, account, size)?;
        fill(&mut self.trades, &mut self.own, slot_id, made);
        Ok(())
    }

    /// Makes a pool of `count` entries of `size` bytes in an empty slot, each absent. Refused as a slice is, by the bytes of the pool's table.
    pub fn make_pool(&mut self, slot_id: SlotId, size: u32, count: u32) -> Result<(), GrowFault>
        requires can { CanMake self.old slot_id }
        requires size { (1 ≤ size) × (size ≤ 2048) }
        requires count { (1 ≤ count) × (count ≤ 1024) }
        ensures made { OnOk result (Settles self.old self.new slot_id (world.Pool size (replicate count None))) }
        ensures unchanged { OnErr result (self.new ≡ self.old) }
        ensures refused { IsPaidWhereLeft (memory_of self.old (holder self.old slot_id)) (up (4 * count)) result }
    {
        let holder = self.holder(slot_id);
        let _heap = &self.heaps[holder];
        self.trades.laws();
        let account = self.trades.leaf_account(holder);
        let made = Content::make_pool(&mut self.trades, account, size, count)?;
        fill(&mut self.trades, &mut self.own, slot_id, made);
        Ok(())
    }

    /// Makes a block of `size` bytes in an empty slot, which read 0.
    ///
    /// Refused as `Exceeded` where the price of the leaf's heap must rise by more than can be paid, else as `CapsExceeded` where it must rise and there
    /// is no capability left; then nothing changes.
    pub fn make_block(&mut self, slot_id: SlotId, size: u32) -> Result<(), GrowFault>
        requires can { CanMake self.old slot_id }
        requires size { (1 ≤ size) × (size ≤ 67108864) }
        ensures made { OnOk result (Settles self.old self.new slot_id (world.Bytes form.Block size (replicate size 0))) }
        ensures unchanged { OnErr result (self.new ≡ self.old) }
        ensures refused { (h : Heap) → IsHeapOf self.old (holder self.old slot_id) h
            → IsRaisedWhereLeft (memory_of self.old (holder self.old slot_id)) (rise h size) result }
    {
        let holder = self.holder(slot_id);
        let _empty = self.content(slot_id);
        self.trades.laws();
        let account = self.trades.leaf_account(holder);
        let made = Content::make_block(&mut self.trades, &mut self.heaps[holder], account, size)?;
        fill(&mut self.trades, &mut self.own, slot_id, made);
        Ok(())
    }

    /// Adds an entry of a pool, whose bytes read 0, and says whether it did: not where it was there.
    ///
    /// Refused as a block of the entry's size is, where the entry is absent; then nothing changes.
    pub fn take(&mut self, slot_id: SlotId, index: u32) -> Result<bool, GrowFault>
        requires there { IsSlotId self.old slot_id }
        requires inside { index < entry_count (content_at self.old slot_id) }
        ensures taken { OnOk result (Settles self.old self.new slot_id (with_entry index added (slot_of self.old slot_id))) }
        ensures added { IfOk result (λ b. IsTrue b ↔ (entry_in index (slot_of self.old slot_id) ≡ None)) }
        ensures unchanged { OnErr result (self.new ≡ self.old) }
        ensures exceeded { (h : Heap) → IsHeapOf self.old (holder self.old slot_id) h → (IsErrOf result GrowFault.Exceeded
            ↔ ((entry_in index (slot_of self.old slot_id) ≡ None)
            × ((memory_of self.old (holder self.old slot_id)).left < rise h (entry_size (content_at self.old slot_id))))) }
        ensures caps_exceeded { (h : Heap) → IsHeapOf self.old (holder self.old slot_id) h → (IsErrOf result GrowFault.CapsExceeded
            ↔ ((entry_in index (slot_of self.old slot_id) ≡ None) × (0 < rise h (entry_size (content_at self.old slot_id)))
            × (rise h (entry_size (content_at self.old slot_id)) ≤ (memory_of self.old (holder self.old slot_id)).left)
            × ((memory_of self.old (holder self.old slot_id)).caps ≡ Some 0))) }
    {
        let holder = self.holder(slot_id);
        let content = self.content(slot_id);
        self.trades.laws();
        let account = self.trades.leaf_account(holder);
        content.take(&mut self.trades, &mut self.heaps[holder], account, index)
    }

    /// Removes an entry of a pool, and says whether it did: not where it was absent.
    pub fn give(&mut self, slot_id: SlotId, index: u32) -> bool
        requires there { IsSlotId self.old slot_id }
        requires inside { index < entry_count (content_at self.old slot_id) }
        ensures given { PutsSlot self.old self.new slot_id (with_entry index removed (slot_of self.old slot_id)) }
        ensures absent { (result ≡ false) ↔ (entry_in index (slot_of self.old slot_id) ≡ None) }
    {
        let holder = self.holder(slot_id);
        let content = self.content(slot_id);
        self.trades.laws();
        let account = self.trades.leaf_account(holder);
        content.give(&mut self.trades, &mut self.heaps[holder], account, index)
    }

    /// Whether an entry of a pool is there.
    pub fn has_entry(&self, slot_id: SlotId, index: u32) -> bool
        requires there { IsSlotId self.now slot_id }
        requires inside { index < entry_count (content_at self.now slot_id) }
        ensures { (result ≡ false) ↔ (entry_in index (slot_of self.now slot_id) ≡ None) }
    {
        let _own = &self.own;
        let holder = self.holder(slot_id);
        let content = self.content(slot_id);
        content.has_entry(&self.trades, &self.heaps[holder], index)
    }

    /// The byte of an entry of a pool, 0 where the entry is absent.
    #[inline(always)]
    pub fn peek(&self, slot_id: SlotId, index: u32, offset: u32) -> u8
        requires there { IsSlotId self.now slot_id }
        requires inside { (index < entry_count (content_at self.now slot_id)) × (offset < entry_size (content_at self.now slot_id)) }
        ensures { result ≡ entry_byte (entry_in index (slot_of self.now slot_id)) offset }
    {
        let _own = &self.own;
        let holder = self.holder(slot_id);
        let content = self.content(slot_id);
        content.peek(&self.trades, &self.heaps[holder], index, offset)
    }

    /// Sets the byte of an entry of a pool; where the entry is absent nothing is done.
    #[inline(always)]
    pub fn poke(&mut self, slot_id: SlotId, index: u32, offset: u32, value: u8)
        requires there { IsSlotId self.old slot_id }
        requires inside { (index < entry_count (content_at self.old slot_id)) × (offset < entry_size (content_at self.old slot_id)) }
        ensures { PutsSlot self.old self.new slot_id (with_entry index (λ n. entry_with offset value) (slot_of self.old slot_id)) }
    {
        let holder = self.holder(slot_id);
        let content = self.content(slot_id);
        self.trades.laws();
        content.poke(&mut self.trades, &self.heaps[holder], index, offset, value);
    }

    /// Makes a slot empty, and the memory free that was in it. Pages of the heap's classes stay the heap's, and paid.
    pub fn free(&mut self, slot_id: SlotId)
        requires slot { IsSlot slot_id }
        requires there { IsSlotId self.old slot_id }
        ensures { PutsSlot self.old self.new slot_id world.Empty }
    {
        let holder = self.holder(slot_id);
        let content = self.content(slot_id);
        self.trades.laws();
        let account = self.trades.leaf_account(holder);
        content.free(&mut self.trades, &mut self.heaps[holder], account);
        clear(&mut self.trades, &mut self.own, slot_id);
    }

    /// Puts what holds no memory into a slot in the place of what holds none: a link, a mark that the slot waits, or nothing. It costs nothing, whoever
    /// pays.
    pub fn mark(&mut self, slot_id: SlotId, contents: Content)
        requires slot { IsSlot slot_id }
        requires there { IsSlotId self.old slot_id }
        requires free { IsMark (content_at self.old slot_id) }
        requires mark { IsMark contents }
        ensures { PutsSlot self.old self.new slot_id (seen (memory_of self.old (holder self.old slot_id)) contents) }
    {
        let holder = self.holder(slot_id);
        let _content = self.content(slot_id);
        let _heap = &self.heaps[holder];
        self.trades.laws();
        replace(&mut self.trades, &mut self.own, slot_id, contents);
    }

    /// The greatest number of places of a class that a leaf's heap has had in use at one time.
    pub fn peak(&self, leaf: usize, class: Class) -> u32
        requires { leaf < length self.now.own }
        ensures { (h : Heap) → IsHeapOf self.now leaf h → result ≡ peak_of h class }
    {
        let _own = &self.own;
        self.heaps[leaf].peak(class)
    }

    /// The sessions with the accounts.
    pub fn trades(&self) -> &Trades
        ensures { result.now ≡ self.now.trades }
    {
        &self.trades
    }

    /// What holds in all `Slots`. It does nothing.
    ///
    /// - What each leaf uses, of bytes and where they are counted of capabilities, is what the machine's definition says that it holds.
    /// - A leaf's peaks are no less than what is in use. A heap's price rises by `rise` if one cell more of a class is in use, and an entry of a pool is such
    ///   a cell.
    /// - Each slot reads in the machine's world as what is in it. A leaf has 64 slots and a session has 8.
    /// - A session's object is a slice, or nothing before its request to open is accepted.
    pub fn laws(&self)
        ensures trades { IsTrades self.now.trades }
        ensures leaves { length self.now.own ≡ length self.now.trades.trading.leaves }
        ensures numbers { length self.now.trades.trading.sessions ≤ self.now.trades.trading.room }
        ensures held { ArePaidFor self.now }
        ensures rises { AreRises self.now }
        ensures entries { AreSmallEntries self.now }
        ensures reads { AreRead self.now }
        ensures long { AreLong self.now }
        ensures sound { AreSound self.now.trades.trading }
    {
        let _own = &self.own;
        self.trades.laws();
        self.trades.accounts().laws();
    }
}
