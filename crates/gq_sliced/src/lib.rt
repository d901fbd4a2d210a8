//! A sliced heap over any store of chunks: each slice is a chunk of its own, with its size at the start, and is gone whole when it is freed.
//!
//! ```rust
//! use gq_list_store::ListStore;
//! use gq_sliced::Sliced;
//!
//! let mut store = ListStore::new(rt.alloc(), 1, None)?;
//! let sliced = Sliced::new();
//! let slice = sliced.alloc(&mut store, account, 4064)?;
//! sliced.store(&mut store, slice, 4063, 7);
//! assert_eq!(rt; sliced.load(&store, slice, 4063), 7);
//! sliced.free(&mut store, account, slice);
//! ```
#![tactic(auto)]

ghost use Rattle.std.specs.Prelude.{◌≡◌, ℕ, ◌+◌, ◌-◌, ◌*◌, ◌^◌, ◌<◌, ◌≤◌, ◌↔◌, [], ◌∷◌, Some, IfOk, OnErr, IsErrOf};
ghost use Rattle.gq_tariff.specs.Prices.{up, price_bytes};
ghost use Rattle.gq_sliced.specs.Slices.{slice_byte, IsInUse, HasSize, HasByte, Makes, Frees, PutsInSlice};

use gq_store::{AccountNo, ByteStore, ChunkNo, Extent, GrowFault};
use gq_tariff::price::{PAGE, SLICE_HEADER};
use gq_tariff::{Held, price_slice};
use std::marker::Model;

/// The bytes of bookkeeping at the start of a slice, as an offset in its chunk.
const HEADER: u32 = SLICE_HEADER as u32;

/// The number of a slice: that of its chunk.
#[derive(Clone, Copy, Debug, PartialEq, Eq)]
pub struct SliceNo {
    number: u32,
}

impl Model for SliceNo {
    ghost use Rattle.std.specs.Prelude.{ℕ};

    ghost Value = { ℕ };

    ghost view = { λ s. s.number };

    ghost inverse = { λ n. record { number = n } };
}

impl SliceNo {
    /// The slice of this number.
    pub fn new(number: u32) -> SliceNo
        ensures { result ≡ number }
    {
        SliceNo { number }
    }

    /// Its number.
    pub fn number(self) -> u32
        ensures { result ≡ self }
    {
        self.number
    }

    /// Its chunk.
    fn chunk(self) -> ChunkNo
        ensures { result ≡ self }
    {
        ChunkNo::new(self.number())
    }

    /// Where its first `length` bytes lie, behind the bookkeeping.
    #[inline(always)]
    pub fn extent(self, length: u64) -> Extent
        ensures { result ≡ record { chunk = self; start = 32; length = length } }
    {
        Extent {
            chunk: self.chunk(),
            start: HEADER,
            length,
        }
    }
}

/// A sliced heap. It keeps no table and allocates no host memory; each call is given the store.
#[derive(Clone, Copy, Debug)]
pub struct Sliced;

impl Sliced {
    /// A sliced heap, over any store.
    pub fn new() -> Sliced {
        Sliced
    }

    /// A slice of `size` bytes, which read 0. The account pays whole pages for its bytes and 32 bytes of
    /// bookkeeping, and one capability.
    ///
    /// Refused as `Exceeded` where the bytes can't be paid, else as `CapsExceeded` where there is no capability left; then nothing has changed.
    pub fn alloc<S: ByteStore>(
        &self,
        store: &mut S,
        account: AccountNo,
        size: u32,
    ) -> Result<SliceNo, GrowFault>
        requires { size ≤ 67108864 }
        ensures ok { IfOk result (λ slice. Makes (S.state store.old account.0) (S.state store.new account.0) size slice) }
        ensures exceeded { IsErrOf result GrowFault.Exceeded ↔ ((S.state store.old account.0).left < up (size + 32)) }
        ensures caps { IsErrOf result GrowFault.CapsExceeded ↔ ((up (size + 32) ≤ (S.state store.old account.0).left) × ((S.state store.old account.0).caps ≡
            Some 0)) }
        ensures err { OnErr result (store.new ≡ store.old) }
        ensures rest { S.same_rest account.0 store.old store.new }
    {
        let chunk = store.grow(account, pages_of(size))?;
        store.store4(chunk, 0, size);
        Ok(SliceNo::new(chunk.number()))
    }

    /// Gives a slice back to the store, whole.
    pub fn free<S: ByteStore>(&self, store: &mut S, account: AccountNo, slice: SliceNo)
        requires { IsInUse (S.state store.old account.0) slice }
        ensures frees { Frees (S.state store.old account.0) (S.state store.new account.0) slice }
        ensures rest { S.same_rest account.0 store.old store.new }
    {
        store.shrink(account, slice.chunk());
    }

    /// The size of a slice, in bytes, as it was made.
    pub fn size<S: ByteStore>(&self, store: &S, slice: SliceNo) -> u32
        requires { (a : ℕ) × IsInUse (S.state store.now a) slice }
        ensures { (a : ℕ) → IsInUse (S.state store.now a) slice → HasSize (S.state store.now a) slice result }
    {
        store.load4(slice.chunk(), 0)
    }

    /// The byte of a slice at an index.
    pub fn load<S: ByteStore>(&self, store: &S, slice: SliceNo, index: u32) -> u8
        requires { (a : ℕ) × HasByte (S.state store.now a) slice index }
        ensures { (a : ℕ) → HasByte (S.state store.now a) slice index → result ≡ slice_byte (S.state store.now a) slice index }
    {
        store.load(slice.chunk(), HEADER + index)
    }

    /// Sets the byte of a slice at an index.
    pub fn store<S: ByteStore>(&self, store: &mut S, slice: SliceNo, index: u32, value: u8)
        requires { (a : ℕ) × HasByte (S.state store.old a) slice index }
        ensures puts { (a : ℕ) → HasByte (S.state store.old a) slice index
            → PutsInSlice (S.state store.old a) (S.state store.new a) slice index (value ∷ []) }
        ensures rest { (a : ℕ) → HasByte (S.state store.old a) slice index → S.same_rest a store.old store.new }
    {
        store.store(slice.chunk(), HEADER + index, value);
    }

    /// What a slice of `n` bytes costs more than its bytes, in bytes.
    pub fn overhead(n: u64) -> u64
        requires { n ≤ 2 ^ 40 }
        ensures { result ≡ price_bytes (Held.Slice n) - n }
    {
        price_slice(n) - n
    }
}

/// How many pages a slice takes.
fn pages_of(size: u32) -> u32
    requires { size ≤ 67108864 }
    ensures price { result * 4096 ≡ up (size + 32) }
    ensures few { (0 < result) × (result ≤ 16385) }
{
    (size + HEADER).div_ceil(PAGE as u32)
}
