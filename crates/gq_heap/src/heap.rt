// Blocks of any size.
ghost use Rattle.std.specs.Prelude.{◌≡◌, ◌+◌, ◌*◌, ◌<◌, ◌≤◌};
ghost use Rattle.gq_tariff.specs.Prices.{up};

use crate::bin::{Bin, give, take};
use crate::cell_class::{
    cell_position, class_for_size, class_index, place_bits, place_size, places_per_chunk,
};
use gq_store::{AccountNo, ByteStore, ChunkNo, Extent, GrowFault};
use gq_tariff::price::{GREATEST_PLACE, PAGE};
use gq_tariff::{Class, price_class, round_up};

/// Where a block lies.
#[derive(Clone, Copy, Debug, PartialEq, Eq)]
pub enum Place {
    /// A place of a class, by its number: the number of its chunk times the places of a chunk, plus its index in the chunk.
    Small(Class, u32),
    /// A chunk of its own, by its number, for a block of so many bytes.
    Large(u32, u32),
}

impl Place {
    ghost use Rattle.std.specs.Prelude.{◌≡◌};
    ghost use Rattle.gq_heap.specs.Heap.{chunk_of, offset_of};

    /// The chunk that it lies in.
    #[inline(always)]
    fn chunk(&self) -> ChunkNo
        ensures { result ≡ chunk_of self.now }
    {
        match *self {
            Place::Small(class, number) => {
                ChunkNo::new(cell_position(number, places_per_chunk(class), place_bits(class)).0)
            }
            Place::Large(number, _) => ChunkNo::new(number),
        }
    }

    /// The offset of its first byte in the chunk.
    #[inline(always)]
    fn offset(&self) -> u32
        ensures { result ≡ offset_of self.now }
    {
        match *self {
            Place::Small(class, number) => {
                cell_position(number, places_per_chunk(class), place_bits(class)).1
                    * place_size(class)
            }
            Place::Large(_, _) => 0,
        }
    }

    /// Where its first `length` bytes lie.
    #[inline(always)]
    pub fn extent(&self, length: u64) -> Extent
        ensures { result ≡ record { chunk = chunk_of self.now; start = offset_of self.now; length = length } }
    {
        Extent {
            chunk: self.chunk(),
            start: self.offset(),
            length,
        }
    }
}

/// A heap in a store of chunks.
///
/// A block of at most 2048 bytes is a place of the least class that holds it. A free place of the class is used before a new chunk is taken, and a chunk of a
/// class stays the heap's. So the chunks of a class are paid by its peak, the greatest number of its places in use at one time so far. A greater block is paid
/// by itself, as long as it is in use.
///
/// The heap allocates no host memory. It holds no part of the store, which each call is given; what lies in other chunks of the store stays.
#[derive(Drop)]
pub struct Heap {
    bins: [Bin; 8],
    // the price of the large blocks in use, in bytes
    large: u64,
    // how many large blocks are in use
    large_count: u32,
    ghost few: { large ≤ 67108864 * 1048576 },
    ghost count_few: { large_count ≤ 1048576 },
}

impl Heap {
    ghost use Rattle.std.specs.Prelude.{◌≡◌, ℕ, ◌+◌, ◌*◌, ◌/◌, ◌<◌, ◌≤◌, ◌↔◌, [], ◌∷◌, Some, IfOk, OnErr, IsErrOf, replicate};
    ghost use Rattle.gq_model.specs.machine.Amounts.{Ram};
    ghost use Rattle.gq_model.specs.machine.Resource_prices.{heap as class_prices};
    ghost use Rattle.gq_tariff.specs.declared.class.Class.{Class};
    ghost use Rattle.gq_store.specs.Store.{Store};
    ghost use Rattle.gq_heap.specs.Heap.{KeepsPlaces, IsHeap, IsInUse, Allocates, Frees, PutsInBlock, peaks, peak_of, rise, charge, charge_caps, room_of};
    ghost use Rattle.gq_heap.specs.Heap.{byte_of};

    /// A heap without a block, over any store.
    pub fn new() -> Heap
        ensures keeps { (st : Store) → KeepsPlaces result st [] }
        ensures kept { (st : Store) → IsHeap result st }
        ensures charge { charge result ≡ 0 }
        ensures charge_caps { charge_caps result ≡ 0 }
        ensures peak { (class : Class) → peak_of result class ≡ 0 }
        ensures peaks { peaks result ≡ replicate 8 0 }
    {
        let empty = Bin {
            head: 0,
            count: 0,
            peak: 0,
        };
        Heap {
            bins: [empty; 8],
            large: 0,
            large_count: 0,
        }
    }

    /// What the chunks cost, in bytes: those of each class by its peak, and those of the large blocks in use.
    pub fn charge(&self) -> u64
        ensures { result ≡ charge self.now }
    {
        self.class_bytes() + self.large
    }

    /// What the chunks cost, in capabilities: one for each page of a class, and one for each large block in use.
    pub fn charge_caps(&self) -> u64
        ensures { result ≡ charge_caps self.now }
    {
        self.class_bytes() / PAGE + u64::from(self.large_count)
    }

    /// The greatest number of places of the class in use at one time so far.
    pub fn peak(&self, class: Class) -> u32
        ensures { result ≡ peak_of self.now class }
    {
        self.bins[class_index(class)].peak
    }

    /// What the chunks of the classes cost, in bytes.
    fn class_bytes(&self) -> u64
        ensures bytes { result ≡ class_prices Ram (peaks self.now) }
        ensures few { result ≤ 281474976710656 }
    {
        let mut total = 0;
        for i in 0..8 {
            total += price_class(Class::ALL[i], u64::from(self.bins[i].peak));
        }
        total
    }

    /// A block of `size` bytes, which read 0, in chunks that the account pays for. Its place was not in use.
    ///
    /// Refused as `Exceeded` where the charge must rise by more than can be paid, else as `CapsExceeded` where it must rise and there is no
    /// capability left; then nothing has changed.
    #[inline(always)]
    pub fn alloc<S: ByteStore>(
        &mut self,
        store: &mut S,
        account: AccountNo,
        size: u32,
    ) -> Result<Place, GrowFault>
        requires size { (1 ≤ size) × (size ≤ 67108864) }
        requires kept { IsHeap self.old (S.state store.old account.0) }
        ensures ok { IfOk result (λ p. Allocates self.old self.new (S.state store.old account.0) (S.state store.new account.0) size p) }
        ensures exceeded { IsErrOf result GrowFault.Exceeded ↔ ((S.state store.old account.0).left < rise self.old size) }
        ensures caps { IsErrOf result GrowFault.CapsExceeded
            ↔ ((0 < rise self.old size) × (rise self.old size ≤ (S.state store.old account.0).left) × ((S.state store.old account.0).caps ≡ Some 0)) }
        ensures err { OnErr result ((self.new ≡ self.old) × (store.new ≡ store.old)) }
        ensures kept { IsHeap self.new (S.state store.new account.0) }
        ensures in_use { IfOk result (λ p. IsInUse self.new (S.state store.new account.0) p) }
        ensures rest { S.same_rest account.0 store.old store.new }
    {
        if u64::from(size) <= GREATEST_PLACE {
            self.alloc_small(store, account, size)
        } else {
            self.alloc_large(store, account, size)
        }
    }

    fn alloc_small<S: ByteStore>(
        &mut self,
        store: &mut S,
        account: AccountNo,
        size: u32,
    ) -> Result<Place, GrowFault>
        requires size { (1 ≤ size) × (size ≤ 2048) }
        requires kept { IsHeap self.old (S.state store.old account.0) }
        ensures ok { IfOk result (λ p. Allocates self.old self.new (S.state store.old account.0) (S.state store.new account.0) size p) }
        ensures exceeded { IsErrOf result GrowFault.Exceeded ↔ ((S.state store.old account.0).left < rise self.old size) }
        ensures caps { IsErrOf result GrowFault.CapsExceeded
            ↔ ((0 < rise self.old size) × (rise self.old size ≤ (S.state store.old account.0).left) × ((S.state store.old account.0).caps ≡ Some 0)) }
        ensures err { OnErr result ((self.new ≡ self.old) × (store.new ≡ store.old)) }
        ensures rest { S.same_rest account.0 store.old store.new }
    {
        let class = class_for_size(size);
        let mut bin = self.bins[class_index(class)];
        let number = take(
            store,
            account,
            &mut bin,
            place_size(class),
            places_per_chunk(class),
            place_bits(class),
        )?;
        self.bins[class_index(class)] = bin;
        Ok(Place::Small(class, number))
    }

    fn alloc_large<S: ByteStore>(
        &mut self,
        store: &mut S,
        account: AccountNo,
        size: u32,
    ) -> Result<Place, GrowFault>
        requires size { (2048 < size) × (size ≤ 67108864) }
        requires kept { IsHeap self.old (S.state store.old account.0) }
        ensures ok { IfOk result (λ p. Allocates self.old self.new (S.state store.old account.0) (S.state store.new account.0) size p) }
        ensures exceeded { IsErrOf result GrowFault.Exceeded ↔ ((S.state store.old account.0).left < rise self.old size) }
        ensures caps { IsErrOf result GrowFault.CapsExceeded
            ↔ ((0 < rise self.old size) × (rise self.old size ≤ (S.state store.old account.0).left) × ((S.state store.old account.0).caps ≡ Some 0)) }
        ensures err { OnErr result ((self.new ≡ self.old) × (store.new ≡ store.old)) }
        ensures rest { S.same_rest account.0 store.old store.new }
    {
        let chunk = store.grow(account, pages_of(size))?;
        self.large += round_up(u64::from(size));
        self.large_count += 1;
        Ok(Place::Large(chunk.number(), size))
    }

    /// Makes the place of a block free. A large block's chunk goes back to the store, a chunk of a class stays the heap's.
    #[inline(always)]
    pub fn free<S: ByteStore>(&mut self, store: &mut S, account: AccountNo, place: Place)
        requires { IsInUse self.old (S.state store.old account.0) place }
        ensures frees { Frees self.old self.new (S.state store.old account.0) (S.state store.new account.0) place }
        ensures kept { IsHeap self.new (S.state store.new account.0) }
        ensures rest { S.same_rest account.0 store.old store.new }
    {
        match place {
            Place::Small(class, number) => self.free_small(store, class, number),
            Place::Large(number, size) => self.free_large(store, account, number, size),
        }
    }

    fn free_small<S: ByteStore>(&mut self, store: &mut S, class: Class, number: u32)
        requires { (a : ℕ) × IsInUse self.old (S.state store.old a) (Place.Small class number) }
        ensures frees { (a : ℕ) → IsInUse self.old (S.state store.old a) (Place.Small class number)
            → Frees self.old self.new (S.state store.old a) (S.state store.new a) (Place.Small class number) }
        ensures rest { (a : ℕ) → IsInUse self.old (S.state store.old a) (Place.Small class number) → S.same_rest a store.old store.new }
    {
        let mut bin = self.bins[class_index(class)];
        give(
            store,
            &mut bin,
            place_size(class),
            places_per_chunk(class),
            place_bits(class),
            number,
        );
        self.bins[class_index(class)] = bin;
    }

    fn free_large<S: ByteStore>(
        &mut self,
        store: &mut S,
        account: AccountNo,
        number: u32,
        size: u32,
    )
        requires { IsInUse self.old (S.state store.old account.0) (Place.Large number size) }
        ensures frees { Frees self.old self.new (S.state store.old account.0) (S.state store.new account.0) (Place.Large number size) }
        ensures rest { S.same_rest account.0 store.old store.new }
    {
        store.shrink(account, ChunkNo::new(number));
        self.large -= round_up(u64::from(size));
        self.large_count -= 1;
    }

    /// The byte of a block at an index.
    pub fn load<S: ByteStore>(&self, store: &S, place: Place, index: u32) -> u8
        requires kept { (a : ℕ) × IsInUse self.now (S.state store.now a) place }
        requires inside { index < room_of place }
        ensures { (a : ℕ) → IsInUse self.now (S.state store.now a) place → result ≡ byte_of (S.state store.now a) place index }
    {
        store.load(place.chunk(), place.offset() + index)
    }

    /// Sets the byte of a block at an index.
    pub fn store<S: ByteStore>(&self, store: &mut S, place: Place, index: u32, value: u8)
        requires kept { (a : ℕ) × IsInUse self.now (S.state store.old a) place }
        requires inside { index < room_of place }
        ensures puts { (a : ℕ) → IsInUse self.now (S.state store.old a) place
            → PutsInBlock self.now (S.state store.old a) (S.state store.new a) place index (value ∷ []) }
        ensures in_use { (a : ℕ) → IsInUse self.now (S.state store.old a) place → IsInUse self.now (S.state store.new a) place }
        ensures rest { (a : ℕ) → IsInUse self.now (S.state store.old a) place → S.same_rest a store.old store.new }
    {
        store.store(place.chunk(), place.offset() + index, value);
    }
}

/// How many pages a large block takes.
fn pages_of(size: u32) -> u32
    requires { size ≤ 67108864 }
    ensures price { result * 4096 ≡ up size }
    ensures few { result ≤ 16384 }
    ensures some { 0 < size → 0 < result }
{
    size.div_ceil(PAGE as u32)
}
