//! Chunks of bytes that are paid for: what a heap, a sliced heap and a pool need of the memory that they lie in.
//!
//! ```rust
//! use gq_store::ByteStore;
//!
//! // In any store a chunk comes as zeros, keeps what is written, and is paid for by its account until it goes.
//! let chunk = store.grow(account, 1)?;
//! store.store4(chunk, 8, 77);
//! assert_eq!(rt; store.load4(chunk, 8), 77);
//! store.shrink(account, chunk);
//! ```
//!
//! [`Extent`] is where some bytes lie.
#![tactic(auto)]

mod extent;

ghost use Rattle.std.specs.Prelude.{◌≡◌, ℕ, ◌+◌, ◌*◌, ◌<◌, ◌≤◌, ◌↔◌, Some, IfOk, OnErr, IsErrOf};
ghost use Rattle.gq_store.specs.Store.{Store, word, IsWord, Writes, Grows, Shrinks};

pub use extent::Extent;
use std::marker::Model;
use thiserror::Error;

/// Why memory is refused.
#[derive(Clone, Copy, Debug, PartialEq, Eq, Error)]
pub enum GrowFault {
    /// The bytes can't be paid.
    #[error("H1 Exceeded")]
    Exceeded,
    /// The bytes could be paid, but the capabilities can't.
    #[error("H2 CapsExceeded")]
    CapsExceeded,
}

/// The number of an account, which pays for chunks.
#[derive(Clone, Copy, Debug, PartialEq, Eq)]
pub struct AccountNo(pub usize);

/// The number of a chunk in its store.
#[derive(Clone, Copy, Debug, PartialEq, Eq)]
pub struct ChunkNo {
    number: u32,
}

impl Model for ChunkNo {
    ghost use Rattle.std.specs.Prelude.{ℕ};

    ghost Value = { ℕ };

    ghost view = { λ c. c.number };

    ghost inverse = { λ n. record { number = n } };
}

impl ChunkNo {
    /// The chunk of this number.
    pub fn new(number: u32) -> ChunkNo
        ensures { result ≡ number }
    {
        ChunkNo { number }
    }

    /// Its number.
    pub fn number(self) -> u32
        ensures { result ≡ self }
    {
        self.number
    }
}

/// Chunks of whole pages of 4096 bytes, each of which an account pays for. A chunk costs its bytes and, where capabilities are counted, one capability.
///
/// Paying and touching are two things. `grow` and `shrink` name the account that pays. Bytes are read and written whoever pays for them.
///
/// Whoever keeps something in a store (a heap, a sliced heap, a pool) takes the store by `&mut` for each call and holds no part of it. So several of them can
/// lie in one store.
pub trait ByteStore {
    /// What each account has in the store, by the account's number: its chunks, and what it can still pay.
    ghost state: { Self → ℕ → Store };

    /// But for what this account has, both stores are the same.
    ghost same_rest: { ℕ → Self → Self → Type 0 };

    /// Adds a chunk of so many pages, at most 16384, whose bytes are 0, and which the account pays for. Its number was not in use.
    ///
    /// Refused as `Exceeded` where the account can't pay the bytes, as those of more pages never can be, else as `CapsExceeded` where capabilities are
    /// counted and it has none left; then the store is as it was.
    fn grow(&mut self, account: AccountNo, pages: u32) -> Result<ChunkNo, GrowFault>
        requires { (0 < pages) × (pages ≤ 16385) }
        ensures ok { IfOk result (λ c. Grows (state self.old account.0) (state self.new account.0) c (pages * 4096)) }
        ensures exceeded { IsErrOf result GrowFault.Exceeded ↔ ((state self.old account.0).left < pages * 4096) }
        ensures caps { IsErrOf result GrowFault.CapsExceeded
            ↔ ((pages * 4096 ≤ (state self.old account.0).left) × ((state self.old account.0).caps ≡ Some 0)) }
        ensures err { OnErr result (self.new ≡ self.old) }
        ensures rest { same_rest account.0 self.old self.new };

    /// Gives a chunk of the account back, and with it what it cost.
    fn shrink(&mut self, account: AccountNo, chunk: ChunkNo)
        requires { 0 < (state self.old account.0).size chunk }
        ensures shrunk { Shrinks (state self.old account.0) (state self.new account.0) chunk }
        ensures rest { same_rest account.0 self.old self.new };

    /// The byte of a chunk at an offset.
    fn load(&self, chunk: ChunkNo, offset: u32) -> u8
        requires { (a : ℕ) × (offset < (state self.now a).size chunk) }
        ensures { (a : ℕ) → offset < (state self.now a).size chunk → result ≡ (state self.now a).byte chunk offset };

    /// Sets the byte of a chunk at an offset.
    fn store(&mut self, chunk: ChunkNo, offset: u32, value: u8)
        requires { (a : ℕ) × (offset < (state self.old a).size chunk) }
        ensures stored { (a : ℕ) → offset < (state self.old a).size chunk → (state self.new a).byte chunk offset ≡ value }
        ensures alone { (a : ℕ) → offset < (state self.old a).size chunk → Writes (state self.old a) (state self.new a) chunk offset 1 }
        ensures rest { (a : ℕ) → offset < (state self.old a).size chunk → same_rest a self.old self.new };

    /// The number in the four bytes from an offset on, the lowest first. Any offset will do.
    fn load4(&self, chunk: ChunkNo, offset: u32) -> u32
        requires { (a : ℕ) × (offset + 4 ≤ (state self.now a).size chunk) }
        ensures { (a : ℕ) → offset + 4 ≤ (state self.now a).size chunk → result ≡ word ((state self.now a).byte chunk) offset };

    /// Writes a number to the four bytes from an offset on, the lowest first. Any offset will do.
    fn store4(&mut self, chunk: ChunkNo, offset: u32, value: u32)
        requires { (a : ℕ) × (offset + 4 ≤ (state self.old a).size chunk) }
        ensures bytes { (a : ℕ) → offset + 4 ≤ (state self.old a).size chunk → IsWord ((state self.new a).byte chunk) offset value }
        ensures stored { (a : ℕ) → offset + 4 ≤ (state self.old a).size chunk → word ((state self.new a).byte chunk) offset ≡ value }
        ensures alone { (a : ℕ) → offset + 4 ≤ (state self.old a).size chunk → Writes (state self.old a) (state self.new a) chunk offset 4 }
        ensures rest { (a : ℕ) → offset + 4 ≤ (state self.old a).size chunk → same_rest a self.old self.new };

    /// Clears `size` bytes of a chunk, from an offset on: each becomes 0.
    fn clear(&mut self, chunk: ChunkNo, offset: u32, size: u32)
        requires some { 0 < size }
        requires inside { (a : ℕ) × (offset + size ≤ (state self.old a).size chunk) }
        ensures zero { (a : ℕ) → offset + size ≤ (state self.old a).size chunk
            → (i : ℕ) → offset ≤ i → i < offset + size → (state self.new a).byte chunk i ≡ 0 }
        ensures alone { (a : ℕ) → offset + size ≤ (state self.old a).size chunk → Writes (state self.old a) (state self.new a) chunk offset size }
        ensures rest { (a : ℕ) → offset + size ≤ (state self.old a).size chunk → same_rest a self.old self.new };

    ghost rest_refl: { (n : ℕ) (a : Self) → same_rest n a a };

    ghost rest_trans: { (n : ℕ) (a b c : Self) → same_rest n a b → same_rest n b c → same_rest n a c };
}
