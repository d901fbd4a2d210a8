// Pools.
ghost use Rattle.std.specs.Prelude.{◌≡◌, ℕ, ◌+◌, ◌*◌, ◌<◌, ◌≤◌, ◌↔◌, Some, IfOk, OnErr, IsErrOf};
ghost use Rattle.gq_tariff.specs.Prices.{up};
ghost use Rattle.gq_store.specs.Store.{word};
ghost use Rattle.gq_heap.specs.Heap.{rise};

use gq_heap::{Heap, Place};
use gq_store::{AccountNo, ByteStore, ChunkNo, GrowFault};
use gq_tariff::price::{PAGE, POOL_ENTRY};
use gq_tariff::{Class, class_of};

/// The bytes of an entry in the table, as an offset in its chunk.
const ENTRY: u32 = POOL_ENTRY as u32;

/// A pool of so many entries of so many bytes. Each entry is absent or there; at first all are absent.
///
/// All calls are given the store and the heap, which the pool holds no part of. Calls that pay are given the account of both.
#[derive(Clone, Copy)]
pub struct Pool {
    // the chunk of the table
    table: u32,
    // the class of the entries
    class: Class,
    // the bytes of an entry
    size: u32,
    // how many entries
    count: u32,
}

impl Pool {
    ghost use Rattle.std.specs.Prelude.{◌≡◌, ℕ, ◌+◌, ◌*◌, ◌<◌, ◌≤◌, ◌↔◌, [], ◌∷◌, Some, IfOk, OnErr, IsErrOf, false};
    ghost use Rattle.gq_pool.specs.Pools.{IsPool, IsAbsent, size_of, count_of, Makes, AddsEntry, RemovesEntry, Reads, PutsInEntry, Ends};

    /// A pool of `count` entries of `size` bytes, each absent. It takes whole pages for its table, and one capability.
    ///
    /// Refused as `Exceeded` where the bytes can't be paid, else as `CapsExceeded` where there is no capability left; then nothing has changed.
    pub fn new<S: ByteStore>(
        store: &mut S,
        account: AccountNo,
        size: u32,
        count: u32,
    ) -> Result<Pool, GrowFault>
        requires size { (1 ≤ size) × (size ≤ 2048) }
        requires count { (1 ≤ count) × (count ≤ 1024) }
        ensures ok { IfOk result (λ pool. Makes (S.state store.old account.0) (S.state store.new account.0) size count pool) }
        ensures exceeded { IsErrOf result GrowFault.Exceeded ↔ ((S.state store.old account.0).left < up (4 * count)) }
        ensures caps { IsErrOf result GrowFault.CapsExceeded ↔ ((up (4 * count) ≤ (S.state store.old account.0).left) × ((S.state store.old account.0).caps ≡
            Some 0)) }
        ensures err { OnErr result (store.new ≡ store.old) }
        ensures rest { S.same_rest account.0 store.old store.new }
    {
        let chunk = store.grow(account, pages_of(count))?;
        Ok(Pool {
            table: chunk.number(),
            class: class_of(u64::from(size)),
            size,
            count,
        })
    }

    /// The bytes of an entry.
    pub fn size(&self) -> u32
        ensures { result ≡ self.now.size }
    {
        self.size
    }

    /// How many entries there are, absent or there.
    pub fn count(&self) -> u32
        ensures { result ≡ self.now.count }
    {
        self.count
    }

    /// Adds the entry, whose bytes read 0, and says whether it did: not where it was there.
    ///
    /// Refused as `Exceeded` where the heap's charge must rise by more than can be paid, else as `CapsExceeded` where it must rise and there is no
    /// capability left; then nothing has changed.
    pub fn take<S: ByteStore>(
        &self,
        store: &mut S,
        heap: &mut Heap,
        account: AccountNo,
        index: u32,
    ) -> Result<bool, GrowFault>
        requires kept { IsPool self.now heap.old (S.state store.old account.0) }
        requires inside { index < count_of self.now }
        ensures ok { IfOk result (λ added. AddsEntry self.now heap.old heap.new (S.state store.old account.0) (S.state store.new account.0) index added) }
        ensures exceeded { IsErrOf result GrowFault.Exceeded
            ↔ (IsAbsent self.now (S.state store.old account.0) index × ((S.state store.old account.0).left < rise heap.old (size_of self.now))) }
        ensures caps { IsErrOf result GrowFault.CapsExceeded ↔ (IsAbsent self.now (S.state store.old account.0) index × (0 < rise heap.old (size_of self.now))
            × (rise heap.old (size_of self.now) ≤ (S.state store.old account.0).left) × ((S.state store.old account.0).caps ≡ Some 0)) }
        ensures err { OnErr result ((heap.new ≡ heap.old) × (store.new ≡ store.old)) }
        ensures kept { IsPool self.now heap.new (S.state store.new account.0) }
        ensures rest { S.same_rest account.0 store.old store.new }
    {
        if self.word(store, index) > 0 {
            return Ok(false);
        }
        let place = heap.alloc(store, account, self.size)?;
        let number = match place {
            Place::Small(_, number) => number,
            Place::Large(_, _) => unreachable!(),
        };
        store.store4(ChunkNo::new(self.table), ENTRY * index, number + 1);
        Ok(true)
    }

    /// Removes the entry, and says whether it did: not where it was absent. Its place is free again.
    #[inline(always)]
    pub fn give<S: ByteStore>(
        &self,
        store: &mut S,
        heap: &mut Heap,
        account: AccountNo,
        index: u32,
    ) -> bool
        requires kept { IsPool self.now heap.old (S.state store.old account.0) }
        requires inside { index < count_of self.now }
        ensures gives { RemovesEntry self.now heap.old heap.new (S.state store.old account.0) (S.state store.new account.0) index result }
        ensures kept { IsPool self.now heap.new (S.state store.new account.0) }
        ensures rest { S.same_rest account.0 store.old store.new }
    {
        let word = self.word(store, index);
        if word == 0 {
            return false;
        }
        heap.free(store, account, Place::Small(self.class, word - 1));
        store.store4(ChunkNo::new(self.table), ENTRY * index, 0);
        true
    }

    /// Whether an entry is there.
    pub fn has_entry<S: ByteStore>(&self, store: &S, heap: &Heap, index: u32) -> bool
        requires kept { (a : ℕ) × IsPool self.now heap.now (S.state store.now a) }
        requires inside { index < count_of self.now }
        ensures { (a : ℕ) → IsPool self.now heap.now (S.state store.now a) → (result ≡ false) ↔ IsAbsent self.now (S.state store.now a) index }
    {
        let _heap = heap;
        self.word(store, index) > 0
    }

    /// The byte of an entry, 0 where the entry is absent.
    #[inline(always)]
    pub fn load<S: ByteStore>(&self, store: &S, heap: &Heap, index: u32, offset: u32) -> u8
        requires kept { (a : ℕ) × IsPool self.now heap.now (S.state store.now a) }
        requires inside { (index < count_of self.now) × (offset < size_of self.now) }
        ensures { (a : ℕ) → IsPool self.now heap.now (S.state store.now a) → Reads self.now heap.now (S.state store.now a) index offset result }
    {
        let word = self.word(store, index);
        if word == 0 {
            return 0;
        }
        heap.load(store, Place::Small(self.class, word - 1), offset)
    }

    /// Sets the byte of an entry; where the entry is absent nothing is done.
    #[inline(always)]
    pub fn store<S: ByteStore>(
        &self,
        store: &mut S,
        heap: &Heap,
        index: u32,
        offset: u32,
        value: u8,
    )
        requires kept { (a : ℕ) × IsPool self.now heap.now (S.state store.old a) }
        requires inside { (index < count_of self.now) × (offset < size_of self.now) }
        ensures puts { (a : ℕ) → IsPool self.now heap.now (S.state store.old a)
            → PutsInEntry self.now heap.now (S.state store.old a) (S.state store.new a) index offset (value ∷ []) }
        ensures kept { (a : ℕ) → IsPool self.now heap.now (S.state store.old a) → IsPool self.now heap.now (S.state store.new a) }
        ensures rest { (a : ℕ) → IsPool self.now heap.now (S.state store.old a) → S.same_rest a store.old store.new }
    {
        let word = self.word(store, index);
        if word > 0 {
            heap.store(store, Place::Small(self.class, word - 1), offset, value);
        }
    }

    /// Gives all entries and the table back to the heap.
    pub fn end<S: ByteStore>(self, store: &mut S, heap: &mut Heap, account: AccountNo)
        requires { IsPool self heap.old (S.state store.old account.0) }
        ensures ends { Ends self heap.old heap.new (S.state store.old account.0) (S.state store.new account.0) }
        ensures rest { S.same_rest account.0 store.old store.new }
    {
        for index in 0..self.count {
            self.give(store, heap, account, index);
        }
        store.shrink(account, ChunkNo::new(self.table));
    }

    /// What the table has for an entry: 0, or the number of its place and one.
    fn word<S: ByteStore>(&self, store: &S, index: u32) -> u32
        requires inside { (a : ℕ) × (4 * index + 4 ≤ (S.state store.now a).size self.now.table) }
        requires few { index < 1024 }
        ensures { (a : ℕ) → 4 * index + 4 ≤ (S.state store.now a).size self.now.table
            → result ≡ word ((S.state store.now a).byte self.now.table) (4 * index) }
    {
        store.load4(ChunkNo::new(self.table), ENTRY * index)
    }
}

/// How many pages the table of so many entries takes.
fn pages_of(count: u32) -> u32
    requires { (1 ≤ count) × (count ≤ 1024) }
    ensures price { result * 4096 ≡ up (4 * count) }
    ensures few { (0 < result) × (result ≤ 16385) }
{
    (ENTRY * count).div_ceil(PAGE as u32)
}
