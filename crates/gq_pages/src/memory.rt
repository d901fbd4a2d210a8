// The raw memory. Only the functions of this file follow a raw pointer.
ghost use Rattle.std.specs.Prelude.{◌≡◌, ℕ, ◌+◌, ◌-◌, ◌^◌, ◌<◌, ◌≤◌, List, [], ◌∷◌, ◌++◌, length, slice_index, slice_set, IfSome};
ghost use denote.RawPtr.{Ptr};
ghost use Rattle.gq_pages.specs.Frame_bytes.{zeroed, zeros};
ghost use Rattle.gq_pages.specs.internal.Ownership.{cells_own, cells_lent, bytes_type};

use std::alloc::Allocator;
use std::marker::{Model, PhantomData};

// The bytes at `at`, and room for `room` more after them.
pub(crate) struct Cells {
    ghost at: { Ptr },
    ghost bytes: { List ℕ },
    ghost room: { ℕ },
}

impl Model for Cells {
    ghost also_owns = { λ c. cells_own c.at c.bytes c.room };

    ghost also_shares = { λ c _ κ. cells_lent c.at c.bytes κ };
}

// The right to give the block of `size` bytes at `at` back to `alloc`.
pub(crate) struct Lease<A: Allocator> {
    marker: PhantomData<A>,
    ghost alloc: { A },
    ghost at: { Ptr },
    ghost size: { ℕ },
}

impl<A: Allocator> Model for Lease<A> {
    ghost also_owns = { λ l. A.dealloc_token l.alloc (bytes_type l.size) l.at };
}

// A block of `size` bytes of host memory, all of it room, and the right to give it back. None where the host refuses it.
pub(crate) fn allocate<A: Allocator>(alloc: &A, size: usize) -> Option<(*mut u8, (Cells, Lease<A>))>
    requires { size < 2 ^ 63 }
    ensures { IfSome result (λ m. (m.1.0.at ≡ m.0) × (m.1.0.bytes ≡ []) × (m.1.0.room ≡ size) × (m.1.1.alloc ≡ alloc.now) × (m.1.1.at ≡ m.0)
        × (m.1.1.size ≡ size)) }
{
    match alloc.allocate(size, 1) {
        Ok(at) => {
            let marker = PhantomData;
            Some((at, (Cells {}, Lease { marker })))
        }
        Err(_) => None,
    }
}

// Gives the block back, whatever bytes it has.
pub(crate) fn free<A: Allocator>(alloc: &A, at: *mut u8, size: usize, cells: Cells, lease: Lease<A>)
    requires { (cells.at ≡ at) × (length cells.bytes + cells.room ≡ size) × (lease.alloc ≡ alloc.now) × (lease.at ≡ at) × (lease.size ≡ size)
        × (size < 2 ^ 63) }
{
    let Cells {} = cells;
    let Lease { marker: _ } = lease;
    unsafe { alloc.deallocate(at, size, 1) }
}

impl Cells {
    // The first byte of the room becomes `byte`.
    pub(crate) fn push(&mut self, at: *mut u8, count: usize, byte: u8)
        requires { (self.old.at ≡ at) × (length self.old.bytes ≡ count) × (0 < self.old.room) }
        ensures { (self.new.at ≡ at) × (self.new.bytes ≡ self.old.bytes ++ byte ∷ []) × (self.new.room ≡ self.old.room - 1) }
    {
        unsafe { *at.add(count) = byte };
    }

    // So many bytes more, which are 0. The pointer is no field here, so that the compiler makes one call of the loop.
    #[tactic(auto, using(crate::proofs::Zeroed_byte_runs::zeros_steps))]
    pub(crate) fn extend(&mut self, at: *mut u8, len: usize, count: usize)
        requires at_end { (self.old.at ≡ at) × (length self.old.bytes ≡ len) }
        requires room { (count ≤ self.old.room) × (len + count < 2 ^ 64) }
        ensures { (self.new.at ≡ at) × (self.new.bytes ≡ self.old.bytes ++ zeros count) × (self.new.room ≡ self.old.room - count) }
    {
        let end = len + count;
        for k in len..end {
            self.push(at, k, 0);
        }
    }

    // The byte at `index`.
    pub(crate) fn byte(&self, at: *mut u8, index: usize) -> u8
        requires { (self.now.at ≡ at) × (index < length self.now.bytes) }
        ensures { result ≡ slice_index self.now.bytes index }
    {
        unsafe { *at.add(index) }
    }

    // The byte at `index` becomes `byte`.
    pub(crate) fn set_byte(&mut self, at: *mut u8, index: usize, byte: u8)
        requires { (self.old.at ≡ at) × (index < length self.old.bytes) }
        ensures { (self.new.at ≡ at) × (self.new.bytes ≡ slice_set self.old.bytes index byte) × (self.new.room ≡ self.old.room) }
    {
        unsafe { *at.add(index) = byte };
    }

    // The `count` bytes from `start` on become 0. The pointer is no field here, so that the compiler makes one call of the loop.
    #[tactic(auto, using(crate::proofs::Zeroed_byte_runs::zeroed_steps))]
    pub(crate) fn zero(&mut self, at: *mut u8, start: usize, count: usize)
        requires { (self.old.at ≡ at) × (start + count ≤ length self.old.bytes) × (start + count < 2 ^ 64) }
        ensures { (self.new.at ≡ at) × (self.new.bytes ≡ zeroed self.old.bytes start count) × (self.new.room ≡ self.old.room) }
    {
        let end = start + count;
        for k in start..end {
            self.set_byte(at, k, 0);
        }
    }
}
