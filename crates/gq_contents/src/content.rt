// What a slot holds.
ghost use Rattle.std.specs.Prelude.{◌≡◌, ◌<◌, ◌≤◌, ◌*◌};
ghost use Rattle.gq_tariff.specs.Prices.{up};

use gq_heap::{Heap, Place};
use gq_pool::Pool;
use gq_sliced::{SliceNo, Sliced};
use gq_store::{AccountNo, ByteStore, ChunkNo, Extent, GrowFault};
use gq_tariff::price::PAGE;
use gq_tariff::round_up;

/// What a slot holds: nothing, memory with where it lies and its size in bytes, or the number of a session, which is no memory.
#[derive(Clone, Copy)]
pub enum Content {
    /// Nothing.
    Empty,
    /// A block of the heap.
    Block(Place, u32),
    /// A slice.
    Slice(SliceNo, u32),
    /// A space: a chunk of its own.
    Space(ChunkNo, u32),
    /// A pool.
    Pool(Pool),
    /// A session that is open.
    Link(u32),
    /// A session of which a reply is awaited.
    Waiting(u32),
}

impl Content {
    ghost use Rattle.std.specs.Prelude.{◌≡◌, ◌<◌, ◌≤◌, ◌+◌, ◌*◌, ◌↔◌, Some, None, IfOk, OnErr, IsErrOf, IsTrue, ℕ, false, replicate};
    ghost use Rattle.gq_tariff.specs.Prices.{up};
    ghost use Rattle.gq_model.specs.declared.program.Form.TheVariants as form;
    ghost use Rattle.gq_model.specs.machine.World as world;
    ghost use Rattle.gq_heap.specs.Heap.{rise, peaks};
    ghost use Rattle.gq_store.specs.Store.{one_more};
    ghost use Rattle.gq_contents.specs.declared.content.Content.TheVariants as content;
    ghost use Rattle.gq_contents.specs.Contents.{IsSlice, seen, shape_of, size_of, extent_of, entry_count, entry_size, entry_in, with_entry};
    ghost use Rattle.gq_contents.specs.Contents.{removed};
    ghost use Rattle.gq_contents.specs.Touches.{Touches};
    ghost use Rattle.gq_model.specs.machine.Memory.{entry_byte, entry_with};
    ghost use Rattle.gq_contents.specs.Contents_invariant.{IsAmong, Changes};
    ghost use Rattle.gq_contents.specs.Paid.{IsMadeBeside, IsMadeIn, IsPaidWhereLeft, IsRaisedWhereLeft, Pays, TakesEntry};

    /// Whether it is nothing.
    pub fn is_empty(&self) -> bool
        ensures { IsTrue result ↔ (self.now ≡ content.Empty) }
    {
        match *self {
            Content::Empty => true,
            Content::Block(_, _)
            | Content::Slice(_, _)
            | Content::Space(_, _)
            | Content::Pool(_)
            | Content::Link(_)
            | Content::Waiting(_) => false,
        }
    }

    /// How many bytes it has that can be read and written: of a space those of its whole pages.
    pub fn size(&self) -> u64
        ensures size { result ≡ size_of self.now }
        ensures small { result ≤ 4294967296 }
    {
        match *self {
            Content::Block(_, size) | Content::Slice(_, size) => u64::from(size),
            Content::Space(_, size) => round_up(u64::from(size)),
            Content::Empty | Content::Pool(_) | Content::Link(_) | Content::Waiting(_) => 0,
        }
    }

    /// The bytes of an entry and how many entries there are, where it is a pool.
    pub fn entries(&self) -> Option<(u32, u32)>
        ensures { result ≡ shape_of self.now }
    {
        match *self {
            Content::Pool(pool) => Some((pool.size(), pool.count())),
            Content::Empty
            | Content::Block(_, _)
            | Content::Slice(_, _)
            | Content::Space(_, _)
            | Content::Link(_)
            | Content::Waiting(_) => None,
        }
    }

    /// Where its bytes lie, if it is a block, a slice or a space: those of `size`.
    #[inline(always)]
    pub fn extent(&self) -> Option<Extent>
        ensures { result ≡ extent_of self.now }
    {
        match *self {
            Content::Block(place, size) => Some(place.extent(u64::from(size))),
            Content::Slice(slice, size) => Some(slice.extent(u64::from(size))),
            Content::Space(chunk, size) => Some(Extent {
                chunk,
                start: 0,
                length: round_up(u64::from(size)),
            }),
            Content::Empty | Content::Pool(_) | Content::Link(_) | Content::Waiting(_) => None,
        }
    }

    /// A new slice of `size` bytes, which read 0.
    ///
    /// Refused as `Exceeded` where the bytes of its pages can't be paid, else as `CapsExceeded` where there is no capability left; then nothing has
    /// changed.
    pub fn make_slice<S: ByteStore>(
        store: &mut S,
        account: AccountNo,
        size: u32,
    ) -> Result<Content, GrowFault>
        requires { size ≤ 67108864 }
        ensures made { IfOk result (λ t. IsMadeBeside (S.state store.old account.0) (S.state store.new account.0) t (world.Bytes form.Slice size (replicate
            size 0)) size) }
        ensures refused { IsPaidWhereLeft (S.state store.old account.0) (up (size + 32)) result }
        ensures err { OnErr result (store.new ≡ store.old) }
        ensures rest { S.same_rest account.0 store.old store.new }
    {
        let slice = Sliced.alloc(store, account, size)?;
        Ok(Content::Slice(slice, size))
    }

    /// A new space of `size` bytes in whole pages, which read 0.
    ///
    /// Refused as `Exceeded` where the bytes of its pages can't be paid, else as `CapsExceeded` where there is no capability left; then nothing has
    /// changed.
    pub fn make_space<S: ByteStore>(
        store: &mut S,
        account: AccountNo,
        size: u32,
    ) -> Result<Content, GrowFault>
        requires { (1 ≤ size) × (size ≤ 67108864) }
        ensures made { IfOk result (λ t. IsMadeBeside (S.state store.old account.0) (S.state store.new account.0) t
            (world.Bytes form.Space size (replicate (up size) 0)) (up size)) }
        ensures refused { IsPaidWhereLeft (S.state store.old account.0) (up size) result }
        ensures err { OnErr result (store.new ≡ store.old) }
        ensures rest { S.same_rest account.0 store.old store.new }
    {
        let chunk = store.grow(account, pages_of(size))?;
        Ok(Content::Space(chunk, size))
    }

    /// A new block of `size` bytes, which read 0.
    ///
    /// Refused as `Exceeded` where the price of the heap must rise by more than can be paid, else as `CapsExceeded` where it must rise and there is no
    /// capability left; then nothing has changed.
    pub fn make_block<S: ByteStore>(
        store: &mut S,
        heap: &mut Heap,
        account: AccountNo,
        size: u32,
    ) -> Result<Content, GrowFault>
        requires size { (1 ≤ size) × (size ≤ 67108864) }
        requires kept { IsAmong heap.old (S.state store.old account.0) content.Empty }
        ensures made { IfOk result (λ t. IsMadeIn heap.old heap.new (S.state store.old account.0) (S.state store.new account.0) t
            (world.Bytes form.Block size (replicate size 0)) size) }
        ensures paid { IfOk result (λ t. (S.state store.new account.0).left + rise heap.old size ≡ (S.state store.old account.0).left) }
        ensures refused { IsRaisedWhereLeft (S.state store.old account.0) (rise heap.old size) result }
        ensures err { OnErr result ((heap.new ≡ heap.old) × (store.new ≡ store.old)) }
        ensures rest { S.same_rest account.0 store.old store.new }
    {
        let place = heap.alloc(store, account, size)?;
        Ok(Content::Block(place, size))
    }

    /// A new pool of `count` entries of `size` bytes, each absent.
    ///
    /// Refused as `Exceeded` where the bytes of its table can't be paid, else as `CapsExceeded` where there is no capability left; then nothing has
    /// changed.
    pub fn make_pool<S: ByteStore>(
        store: &mut S,
        payer: AccountNo,
        size: u32,
        count: u32,
    ) -> Result<Content, GrowFault>
        requires size { (1 ≤ size) × (size ≤ 2048) }
        requires count { (1 ≤ count) × (count ≤ 1024) }
        ensures made { IfOk result (λ t. IsMadeBeside (S.state store.old payer.0) (S.state store.new payer.0) t (world.Pool size (replicate count None)) 0) }
        ensures entries { IfOk result (λ t. (entry_count t ≡ count) × (entry_size t ≡ size)) }
        ensures refused { IsPaidWhereLeft (S.state store.old payer.0) (up (4 * count)) result }
        ensures err { OnErr result (store.new ≡ store.old) }
        ensures rest { S.same_rest payer.0 store.old store.new }
    {
        let pool = Pool::new(store, payer, size, count)?;
        Ok(Content::Pool(pool))
    }

    /// Adds an entry of a pool, whose bytes read 0, and says whether it did: not where it was there.
    ///
    /// Refused as `Exceeded` where the price of the heap must rise by more than can be paid, else as `CapsExceeded` where it must rise and there is no
    /// capability left; then nothing has changed.
    pub fn take<S: ByteStore>(
        &self,
        store: &mut S,
        heap: &mut Heap,
        account: AccountNo,
        index: u32,
    ) -> Result<bool, GrowFault>
        requires kept { IsAmong heap.old (S.state store.old account.0) self.now }
        requires inside { index < entry_count self.now }
        ensures taken { IfOk result (λ b. TakesEntry heap.old heap.new (S.state store.old account.0) (S.state store.new account.0) self.now index b) }
        ensures exceeded { IsErrOf result GrowFault.Exceeded
            ↔ ((entry_in index (seen (S.state store.old account.0) self.now) ≡ None) × ((S.state store.old account.0).left < rise heap.old (entry_size
            self.now))) }
        ensures none { IsErrOf result GrowFault.CapsExceeded
            ↔ ((entry_in index (seen (S.state store.old account.0) self.now) ≡ None) × (0 < rise heap.old (entry_size self.now))
            × (rise heap.old (entry_size self.now) ≤ (S.state store.old account.0).left) × ((S.state store.old account.0).caps ≡ Some 0)) }
        ensures err { OnErr result ((heap.new ≡ heap.old) × (store.new ≡ store.old)) }
        ensures rest { S.same_rest account.0 store.old store.new }
    {
        let pool = self.pool();
        pool.take(store, heap, account, index)
    }

    /// Removes an entry of a pool, and says whether it did: not where it was absent. Its place is free again, and its page stays the heap's, and paid.
    #[inline(always)]
    pub fn give<S: ByteStore>(
        &self,
        store: &mut S,
        heap: &mut Heap,
        account: AccountNo,
        index: u32,
    ) -> bool
        requires kept { IsAmong heap.old (S.state store.old account.0) self.now }
        requires inside { index < entry_count self.now }
        ensures changes { Changes heap.old heap.new (S.state store.old account.0) (S.state store.new account.0) self.now self.now }
        ensures seen { seen (S.state store.new account.0) self.now ≡ with_entry index removed (seen (S.state store.old account.0) self.now) }
        ensures absent { (result ≡ false) ↔ (entry_in index (seen (S.state store.old account.0) self.now) ≡ None) }
        ensures pays { Pays heap.old heap.new (S.state store.old account.0) (S.state store.new account.0) self.now self.now }
        ensures peaks { peaks heap.new ≡ peaks heap.old }
        ensures rest { S.same_rest account.0 store.old store.new }
    {
        let pool = self.pool();
        pool.give(store, heap, account, index)
    }

    /// Whether an entry of a pool is there.
    pub fn has_entry<S: ByteStore>(&self, store: &S, heap: &Heap, index: u32) -> bool
        requires kept { (a : ℕ) × IsAmong heap.now (S.state store.now a) self.now }
        requires inside { index < entry_count self.now }
        ensures { (a : ℕ) → IsAmong heap.now (S.state store.now a) self.now
            → (result ≡ false) ↔ (entry_in index (seen (S.state store.now a) self.now) ≡ None) }
    {
        let pool = self.pool();
        pool.has_entry(store, heap, index)
    }

    /// The byte of an entry of a pool, 0 where the entry is absent.
    #[inline(always)]
    pub fn peek<S: ByteStore>(&self, store: &S, heap: &Heap, index: u32, offset: u32) -> u8
        requires kept { (a : ℕ) × IsAmong heap.now (S.state store.now a) self.now }
        requires inside { (index < entry_count self.now) × (offset < entry_size self.now) }
        ensures { (a : ℕ) → IsAmong heap.now (S.state store.now a) self.now
            → result ≡ entry_byte (entry_in index (seen (S.state store.now a) self.now)) offset }
    {
        let pool = self.pool();
        pool.load(store, heap, index, offset)
    }

    /// Sets the byte of an entry of a pool; where the entry is absent nothing is done.
    #[inline(always)]
    pub fn poke<S: ByteStore>(&self, store: &mut S, heap: &Heap, index: u32, offset: u32, value: u8)
        requires kept { (a : ℕ) × IsAmong heap.now (S.state store.old a) self.now }
        requires inside { (index < entry_count self.now) × (offset < entry_size self.now) }
        ensures puts { (a : ℕ) → IsAmong heap.now (S.state store.old a) self.now
            → Touches heap.now (S.state store.old a) (S.state store.new a) self.now (with_entry index (λ n. entry_with offset value)) }
        ensures rest { (a : ℕ) → IsAmong heap.now (S.state store.old a) self.now → S.same_rest a store.old store.new }
    {
        let pool = self.pool();
        pool.store(store, heap, index, offset, value);
    }

    // The pool that it is.
    fn pool(&self) -> Pool
        requires { 0 < entry_count self.now }
        ensures { self.now ≡ content.Pool result }
    {
        match *self {
            Content::Pool(pool) => pool,
            Content::Empty
            | Content::Block(_, _)
            | Content::Slice(_, _)
            | Content::Space(_, _)
            | Content::Link(_)
            | Content::Waiting(_) => unreachable!(),
        }
    }

    /// Makes the memory of a slice free, which lies in no heap.
    pub fn free_slice<S: ByteStore>(&self, store: &mut S, account: AccountNo)
        requires { IsSlice (S.state store.old account.0) self.now }
        ensures changes { (heap : Heap) → Changes heap heap (S.state store.old account.0) (S.state store.new account.0) self.now content.Empty }
        ensures pays { (heap : Heap) → Pays heap heap (S.state store.old account.0) (S.state store.new account.0) self.now content.Empty }
        ensures back { (S.state store.new account.0).left ≡ (S.state store.old account.0).left + up (size_of self.now + 32) }
        ensures caps { (S.state store.new account.0).caps ≡ one_more (S.state store.old account.0).caps }
        ensures rest { S.same_rest account.0 store.old store.new }
    {
        let Content::Slice(slice, _) = *self else {
            unreachable!();
        };
        Sliced.free(store, account, slice);
    }

    /// Makes its memory free. Pages of classes stay the heap's, and paid.
    pub fn free<S: ByteStore>(&self, store: &mut S, heap: &mut Heap, account: AccountNo)
        requires kept { IsAmong heap.old (S.state store.old account.0) self.now }
        ensures changes { Changes heap.old heap.new (S.state store.old account.0) (S.state store.new account.0) self.now content.Empty }
        ensures pays { Pays heap.old heap.new (S.state store.old account.0) (S.state store.new account.0) self.now content.Empty }
        ensures peaks { peaks heap.new ≡ peaks heap.old }
        ensures rest { S.same_rest account.0 store.old store.new }
    {
        match *self {
            Content::Empty | Content::Link(_) | Content::Waiting(_) => {}
            Content::Block(place, _) => heap.free(store, account, place),
            Content::Slice(slice, _) => Sliced.free(store, account, slice),
            Content::Space(chunk, _) => store.shrink(account, chunk),
            Content::Pool(pool) => pool.end(store, heap, account),
        }
    }
}

/// How many pages a space takes.
fn pages_of(size: u32) -> u32
    requires { (1 ≤ size) × (size ≤ 67108864) }
    ensures price { result * 4096 ≡ up size }
    ensures few { (0 < result) × (result ≤ 16384) }
{
    size.div_ceil(PAGE as u32)
}
