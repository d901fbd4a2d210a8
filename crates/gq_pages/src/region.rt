// The block as one list of bytes, which grows up to the size of the block. Nothing here follows a pointer.
ghost use Rattle.std.specs.Prelude.{◌≡◌, [], ◌+◌, ◌%◌, ◌^◌, ◌<◌, ◌≤◌, ◌++◌, length, slice_index, slice_set, IfSome};
ghost use Rattle.std.specs.Int.{w32, to_le_bytes};
ghost use Rattle.gq_pages.specs.Frame_bytes.{zeros, zeroed, word_at, with_bytes};

use crate::marks::{marked, swept};
use crate::memory::{Cells, Lease, allocate, free};
use gq_tariff::price::PAGE;
use std::alloc::Global;
use std::marker::Model;

// A block of `size` bytes. Those at its start were written so far; the rest has never been touched.
pub(crate) struct Region {
    at: *mut u8,
    size: usize,
    cells: Cells,
    lease: Lease<Global>,
    // Of each page so many bytes, those at its start, may be other than 0.
    marks: Vec<u16>,
    alloc: Global,
}

impl Model for Region {
    ghost use Rattle.gq_pages.specs.internal.Region.{Contents};

    ghost Value = { Contents };

    ghost use Rattle.gq_pages.specs.internal.Region.{contents, IsRegion};

    ghost view = { contents };

    ghost invariant = { IsRegion };
}

impl Drop for Region {
    fn drop(self) {
        let Region {
            at,
            size,
            cells,
            lease,
            marks: _marks,
            alloc,
        } = self;
        free(&alloc, at, size, cells, lease);
    }
}

impl Region {
    // A block of `size` bytes, none of them written.
    pub(crate) fn new(alloc: Global, size: usize) -> Option<Region>
        requires { size < 2 ^ 63 }
        ensures empty { IfSome result (λ r. r.bytes ≡ []) }
        ensures size { IfSome result (λ r. r.size ≡ size) }
    {
        let Ok(marks) = Vec::from_elem(alloc, 0, size / PAGE as usize + 1) else {
            return None;
        };
        let (at, (cells, lease)) = allocate(&alloc, size)?;
        Some(Region {
            at,
            size,
            cells,
            lease,
            marks,
            alloc,
        })
    }

    // Writes 0 to the `count` bytes after the first `len`, which are all that were written so far.
    pub(crate) fn extend(&mut self, len: usize, count: usize)
        requires at_end { length self.old.bytes ≡ len }
        requires room { len + count ≤ self.old.size }
        ensures bytes { self.new.bytes ≡ self.old.bytes ++ zeros count }
        ensures size { self.new.size ≡ self.old.size }
    {
        let _size = self.size;
        self.cells.extend(self.at, len, count);
    }

    pub(crate) fn byte(&self, index: usize) -> u8
        requires { index < length self.now.bytes }
        ensures { result ≡ slice_index self.now.bytes index }
    {
        self.cells.byte(self.at, index)
    }

    pub(crate) fn set_byte(&mut self, index: usize, byte: u8)
        requires { index < length self.old.bytes }
        ensures bytes { self.new.bytes ≡ slice_set self.old.bytes index byte }
        ensures size { self.new.size ≡ self.old.size }
    {
        marked(&mut self.marks, index, 1);
        self.cells.set_byte(self.at, index, byte);
    }

    // The four bytes from `index` on, the lowest first. They are read at one go: the compiler makes one load of the four.
    pub(crate) fn word(&self, index: usize) -> u32
        requires { index + 4 ≤ length self.now.bytes }
        ensures { result ≡ word_at self.now.bytes index }
    {
        let _size = self.size;
        u32::from_le_bytes([
            self.byte(index),
            self.byte(index + 1),
            self.byte(index + 2),
            self.byte(index + 3),
        ])
    }

    // Writes the four bytes from `index` on, which are of one page, the lowest first; one store, as in `word`. The pointer is read once: a byte that is
    // written could be one of its own, as far as the compiler sees, which made four stores.
    pub(crate) fn set_word(&mut self, index: usize, word: u32)
        requires { (index + 4 ≤ length self.old.bytes) × (index % 4096 + 4 ≤ 4096) }
        ensures bytes { self.new.bytes ≡ with_bytes self.old.bytes index (to_le_bytes w32 word) }
        ensures size { self.new.size ≡ self.old.size }
    {
        let _size = self.size;
        marked(&mut self.marks, index, 4);
        let at = self.at;
        let [a, b, c, d] = word.to_le_bytes();
        self.cells.set_byte(at, index, a);
        self.cells.set_byte(at, index + 1, b);
        self.cells.set_byte(at, index + 2, c);
        self.cells.set_byte(at, index + 3, d);
    }

    // The `count` bytes from `start` on, which are of one page, become 0. Those that are 0 already are not written.
    pub(crate) fn zero(&mut self, start: usize, count: usize)
        requires { (start + count ≤ length self.old.bytes) × (start % 4096 + count ≤ 4096) }
        ensures bytes { self.new.bytes ≡ zeroed self.old.bytes start count }
        ensures size { self.new.size ≡ self.old.size }
    {
        let least = swept(&mut self.marks, start, count);
        self.cells.zero(self.at, start, least);
    }
}
