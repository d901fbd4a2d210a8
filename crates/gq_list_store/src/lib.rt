//! A store of chunks in one plain list of bytes: for tests, and to compare other stores with.
//!
//! ```rust
//! use gq_list_store::ListStore;
//! use gq_store::{AccountNo, ByteStore};
//!
//! // All accounts share what a list store can pay.
//! let account = AccountNo(0);
//! let mut store = ListStore::new(rt.alloc(), 4, None)?;
//! let chunk = store.grow(account, 1)?;
//! store.store4(chunk, 4092, 7);
//! assert_eq!(rt; store.load4(chunk, 4092), 7);
//! store.shrink(account, chunk);
//! ```
//!
//! [`share`] is an example of allocators that share a store: two pools of one class, a block and a slice, each of which keeps what it has while the others are
//! used.
//!
//! ```rust
//! use gq_list_store::share;
//!
//! assert_eq!(rt; share(&mut heap, &mut store, account)?, (7, 9, 5));
//! ```
#![tactic(auto)]

mod sharing;

ghost use Rattle.std.specs.Prelude.{◌≡◌, ℕ, ◌+◌, ◌-◌, ◌*◌, ◌%◌, ◌<◌, ◌≤◌, ◌↔◌, ◌⊎◌, Option, Some, None, IfOk, MatchOption, IsTrue, length};
ghost use Rattle.std.specs.Prelude.{slice_index};
ghost use Rattle.gq_store.specs.Store.{one_more};
ghost use Rattle.gq_list_store.specs.Chunk_layout.{AreSlots, caps_or_none};

use gq_store::{AccountNo, ByteStore, ChunkNo, GrowFault};
use gq_tariff::price;
pub use sharing::share;
use std::alloc::{AllocError, Global};

/// The bytes of a page, as a size of a chunk.
const PAGE: u32 = price::PAGE as u32;

/// Chunks in one list, up to a limit in bytes and in capabilities.
///
/// Chunk `k` has the bytes from `k * stride` on, where `stride` is the limit: there is room for one chunk a page, each as great as the limit. All of it
/// is reserved when the store is made, so that a chunk allocates no host memory.
#[derive(Drop)]
pub struct ListStore {
    bytes: Vec<u8>,
    // the bytes of each chunk, or 0
    sizes: Vec<u32>,
    stride: u32,
    left: u32,
    caps: Option<u32>,
    ghost slots: { AreSlots bytes.items sizes.items stride left caps },
}

impl ListStore {
    ghost use Rattle.std.specs.Prelude.{◌≡◌, ℕ, ◌+◌, ◌*◌, ◌<◌, ◌≤◌, IfOk, length};
    ghost use Rattle.gq_list_store.specs.View.{store_of};

    /// A store without a chunk, which can pay so many pages, and so many capabilities or, with `None`, any number of them.
    ///
    /// It takes `pages * pages * 4096` bytes of host memory.
    pub fn new(alloc: Global, pages: u32, caps: Option<u32>) -> Result<ListStore, AllocError>
        requires small { pages ≤ 256 }
        requires few { caps_or_none caps ≤ 65536 }
        ensures left { IfOk result (λ s. (store_of s).left ≡ pages * 4096) }
        ensures caps { IfOk result (λ s. (store_of s).caps ≡ caps) }
        ensures empty { IfOk result (λ s. (k : ℕ) → (store_of s).size k ≡ 0) }
    {
        let stride = pages * PAGE;
        let bytes = vec![in alloc; 0; pages as usize * stride as usize]?;
        let sizes = vec![in alloc; 0; pages as usize]?;
        Ok(ListStore {
            bytes,
            sizes,
            stride,
            left: stride,
            caps,
        })
    }

    /// Where the byte of a chunk stands in the list.
    fn position(&self, chunk: ChunkNo, offset: u32) -> usize
        requires { offset < (store_of self.now).size chunk }
        ensures position { result ≡ chunk * self.now.stride + offset }
        ensures inside { result < length self.now.bytes.items }
    {
        chunk.number() as usize * self.stride as usize + offset as usize
    }
}

/// Whether capabilities are counted and there is none left.
fn is_spent(caps: Option<u32>) -> bool
    ensures { IsTrue result ↔ (caps ≡ Some 0) }
{
    match caps {
        None => false,
        Some(n) => n == 0,
    }
}

/// One capability less, where they are counted.
fn one_less(caps: Option<u32>) -> Option<u32>
    requires { caps ≡ Some 0 → ⊥ }
    ensures { caps ≡ one_more result }
{
    match caps {
        None => None,
        Some(n) => Some(n - 1),
    }
}

/// The place of the first 0.
fn first_zero(xs: &[u32]) -> Option<usize>
    ensures { MatchOption result ((k : ℕ) → k < length xs.now → 0 < slice_index xs.now k) (λ k. (k < length xs.now) × (slice_index xs.now k ≡ 0)) }
{
    for (i, x) in xs.iter().enumerate() {
        if *x == 0 {
            return Some(i);
        }
    }
    None
}

/// Sets `n` bytes from `start` on to 0.
fn clear(bytes: &mut [u8], start: usize, n: usize)
    requires { start + n ≤ length bytes.old }
    ensures zero { (k : ℕ) → start ≤ k → k < start + n → slice_index bytes.new k ≡ 0 }
    ensures others { (k : ℕ) → (k < start) ⊎ (start + n ≤ k) → slice_index bytes.new k ≡ slice_index bytes.old k }
{
    for i in 0..n {
        bytes[start + i] = 0;
    }
}

impl ByteStore for ListStore {
    ghost use Rattle.gq_list_store.specs.View.{store_of, Any};

    ghost state = { λ s a. store_of s };

    ghost same_rest = { λ n. Any };

    fn grow(&mut self, _account: AccountNo, pages: u32) -> Result<ChunkNo, GrowFault> {
        let size = pages * PAGE;
        if self.left < size {
            return Err(GrowFault::Exceeded);
        }
        if is_spent(self.caps) {
            return Err(GrowFault::CapsExceeded);
        }
        let Some(k) = first_zero(&self.sizes) else {
            return Err(GrowFault::Exceeded);
        };
        clear(&mut self.bytes, k * self.stride as usize, size as usize);
        self.sizes[k] = size;
        self.left -= size;
        self.caps = one_less(self.caps);
        Ok(ChunkNo::new(k as u32))
    }

    fn shrink(&mut self, _account: AccountNo, chunk: ChunkNo) {
        let k = chunk.number() as usize;
        self.left += self.sizes[k];
        self.sizes[k] = 0;
        self.caps = match self.caps {
            None => None,
            Some(n) => Some(n + 1),
        };
    }

    fn load(&self, chunk: ChunkNo, offset: u32) -> u8 {
        self.bytes[self.position(chunk, offset)]
    }

    fn store(&mut self, chunk: ChunkNo, offset: u32, value: u8) {
        let position = self.position(chunk, offset);
        self.bytes[position] = value;
    }

    fn load4(&self, chunk: ChunkNo, offset: u32) -> u32 {
        self.load(chunk, offset) as u32
            + 256 * self.load(chunk, offset + 1) as u32
            + 65536 * self.load(chunk, offset + 2) as u32
            + 16777216 * self.load(chunk, offset + 3) as u32
    }

    fn store4(&mut self, chunk: ChunkNo, offset: u32, value: u32) {
        self.store(chunk, offset, (value % 256) as u8);
        self.store(chunk, offset + 1, (value / 256 % 256) as u8);
        self.store(chunk, offset + 2, (value / 65536 % 256) as u8);
        self.store(chunk, offset + 3, (value / 16777216) as u8);
    }

    fn clear(&mut self, chunk: ChunkNo, offset: u32, size: u32) {
        let position = self.position(chunk, offset);
        clear(&mut self.bytes, position, size as usize);
    }

    ghost rest_refl = { λ n a. tt };

    ghost rest_trans = { λ n a b c h k. tt };
}
