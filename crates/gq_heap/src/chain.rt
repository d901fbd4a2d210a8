// Free places that are chained through their own first four bytes.
ghost use Rattle.std.specs.Prelude.{◌≡◌, ℕ, ◌+◌, ◌-◌, ◌*◌, ◌/◌, ◌%◌, ◌^◌, ◌<◌, ◌≤◌};
ghost use Rattle.gq_store.specs.Store.{Writes};
ghost use Rattle.gq_heap.specs.internal.Chain.{IsSize, IsChain, place_byte, link, descending};

use crate::cell_class::cell_position;
use gq_store::{ByteStore, ChunkNo};

/// Chains all places of a chunk, the last one first, and gives the head.
pub fn chain_all<S: ByteStore>(store: &mut S, chunk: ChunkNo, size: u32, places: u32) -> u32
    requires size { IsSize size places }
    requires chunk { (a : ℕ) × ((S.state store.old a).size chunk ≡ 4096) }
    requires number { chunk < 1048576 }
    ensures chain { (a : ℕ) → (S.state store.old a).size chunk ≡ 4096
        → IsChain (link (S.state store.new a) size places) result (descending (chunk * places) places) }
    ensures alone { (a : ℕ) → (S.state store.old a).size chunk ≡ 4096 → Writes (S.state store.old a) (S.state store.new a) chunk 0 4096 }
    ensures rest { (a : ℕ) → (S.state store.old a).size chunk ≡ 4096 → S.same_rest a store.old store.new }
{
    let mut head = 0;
    for i in 0..places {
        store.store4(chunk, i * size, head);
        head = chunk.number() * places + i + 1;
    }
    head
}

/// Puts a place before the chain, and gives the new head.
pub fn push<S: ByteStore>(
    store: &mut S,
    size: u32,
    places: u32,
    bits: u32,
    head: u32,
    place: u32,
) -> u32
    requires size { IsSize size places }
    requires bits { (bits ≤ 8) × (places ≡ 2 ^ bits) }
    requires chunk { (a : ℕ) × ((S.state store.old a).size (place / places) ≡ 4096) }
    requires number { place / places < 1048576 }
    ensures head { result ≡ place + 1 }
    ensures link { (a : ℕ) → (S.state store.old a).size (place / places) ≡ 4096 → link (S.state store.new a) size places place ≡ head }
    ensures alone { (a : ℕ) → (S.state store.old a).size (place / places) ≡ 4096
        → Writes (S.state store.old a) (S.state store.new a) (place / places) (place % places * size) 4 }
    ensures rest { (a : ℕ) → (S.state store.old a).size (place / places) ≡ 4096 → S.same_rest a store.old store.new }
{
    let (chunk, index) = cell_position(place, places, bits);
    store.store4(ChunkNo::new(chunk), index * size, head);
    place + 1
}

/// Takes the place at the head of the chain out of it and clears it; gives the head of what is left.
pub fn pop<S: ByteStore>(store: &mut S, size: u32, places: u32, bits: u32, place: u32) -> u32
    requires size { IsSize size places }
    requires bits { (bits ≤ 8) × (places ≡ 2 ^ bits) }
    requires chunk { (a : ℕ) × ((S.state store.old a).size (place / places) ≡ 4096) }
    ensures next { (a : ℕ) → (S.state store.old a).size (place / places) ≡ 4096 → result ≡ link (S.state store.old a) size places place }
    ensures zero { (a : ℕ) → (S.state store.old a).size (place / places) ≡ 4096
        → (i : ℕ) → i < size → place_byte (S.state store.new a) size places place i ≡ 0 }
    ensures alone { (a : ℕ) → (S.state store.old a).size (place / places) ≡ 4096
        → Writes (S.state store.old a) (S.state store.new a) (place / places) (place % places * size) size }
    ensures rest { (a : ℕ) → (S.state store.old a).size (place / places) ≡ 4096 → S.same_rest a store.old store.new }
{
    let (chunk, index) = cell_position(place, places, bits);
    let chunk = ChunkNo::new(chunk);
    let offset = index * size;
    let next = store.load4(chunk, offset);
    store.clear(chunk, offset, size);
    next
}
