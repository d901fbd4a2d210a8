// What is read and written in the bytes of a content.
ghost use Rattle.std.specs.Prelude.{◌≡◌, ℕ, ◌+◌, ◌≤◌, Some, slice_range};
ghost use Rattle.gq_model.specs.machine.Program.{bytes_of, little, spelled};
ghost use Rattle.gq_heap.specs.declared.heap.Heap.{Heap};
ghost use Rattle.gq_contents.specs.declared.content.Content.{Content};
ghost use Rattle.gq_contents.specs.Contents.{bytes_in, extent_of, put_in, seen};
ghost use Rattle.gq_contents.specs.Contents_invariant.{IsAmong};
ghost use Rattle.gq_contents.specs.Touches.{IsOfExtent, Touches};

use gq_model::program::Width;
use gq_store::{ByteStore, Extent};

/// Reads a byte or a word of the content that has this extent, from an index on, the least byte first.
#[inline(always)]
pub fn read<S: ByteStore>(store: &S, extent: Extent, width: Width, index: u32) -> u32
    requires inside { index + bytes_of width ≤ extent.length }
    requires there { (a : ℕ) × IsOfExtent (S.state store.now a) extent }
    ensures { (a : ℕ) (heap : Heap) (t : Content) → IsAmong heap (S.state store.now a) t → extent_of t ≡ Some extent
        → result ≡ little (slice_range (bytes_in (seen (S.state store.now a) t)) index (index + bytes_of width)) }
{
    match width {
        Width::Byte => u32::from(store.load(extent.chunk, extent.start + index)),
        Width::Word => store.load4(extent.chunk, extent.start + index),
    }
}

/// Writes a byte of a number, or all four as a word, to the content that has this extent, at an index, the least byte first. No other content changes, nor the
/// heap, nor what an account can still pay.
#[inline(always)]
pub fn write<S: ByteStore>(store: &mut S, extent: Extent, width: Width, index: u32, value: u32)
    requires inside { index + bytes_of width ≤ extent.length }
    requires there { (a : ℕ) × IsOfExtent (S.state store.old a) extent }
    ensures puts { (a : ℕ) (heap : Heap) (t : Content) → IsAmong heap (S.state store.old a) t → extent_of t ≡ Some extent
        → Touches heap (S.state store.old a) (S.state store.new a) t (put_in index (spelled (bytes_of width) value)) }
    ensures rest { (a : ℕ) → IsOfExtent (S.state store.old a) extent → S.same_rest a store.old store.new }
{
    match width {
        Width::Byte => store.store(extent.chunk, extent.start + index, (value % 256) as u8),
        Width::Word => store.store4(extent.chunk, extent.start + index, value),
    }
}
