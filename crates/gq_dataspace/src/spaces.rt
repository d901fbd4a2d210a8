// Dataspaces over frames: which bytes lie in which frame.
ghost use Rattle.std.specs.Prelude.{◌≡◌, ◌+◌, ◌*◌, ◌%◌, ◌^◌, ◌<◌, ◌≤◌, ◌↔◌, ◌++◌, length, Some, None, slice_index, slice_set, IfOk, OnOk, OnErr, IsOk};
ghost use Rattle.std.specs.Int.{w32, to_le_bytes};
ghost use Rattle.gq_tariff.specs.Prices.{up};
ghost use Rattle.gq_pages.specs.Frame_bytes.{zeros, zeroed, word_at, with_bytes};
ghost use Rattle.gq_pages.specs.Frame_map.{all_free, count_free, zero_frame, IsFree};
ghost use Rattle.gq_dataspace.specs.Dataspaces.{IsLive, IsVacant, content_of, shorter};

use crate::frame_lists::FrameLists;
use gq_pages::{FrameNo, Pages};
use gq_tariff::price::PAGE;
use gq_tariff::round_up;
use std::alloc::{AllocError, Global};
use std::marker::Model;
use thiserror::Error;

// The bytes of a frame, which is a page, as an offset.
const FRAME_SIZE: u32 = PAGE as u32;

/// The number of a dataspace. It is that of its first frame, so no other dataspace has it while this one is there.
#[derive(Clone, Copy, Debug, PartialEq, Eq)]
pub struct DsId(pub u32);

/// Why there is no dataspace.
#[derive(Clone, Copy, Debug, PartialEq, Eq, Error)]
pub enum SpaceFault {
    /// Fewer frames are free than it needs.
    #[error("F1 NoFrames")]
    NoFrames,
}

/// Dataspaces, each a list of bytes in whole pages of 4096 bytes, wherever frames are free. A contract sees a list with an entry for each
/// number that a dataspace may have, its bytes or `None`, and how many frames are free. No call but `new` allocates host memory.
#[derive(Drop)]
pub struct Spaces {
    pages: Pages,
    table: FrameLists,
}

impl Model for Spaces {
    ghost use Rattle.gq_dataspace.specs.Dataspaces.{Dataspaces};

    ghost Value = { Dataspaces };

    ghost use Rattle.gq_dataspace.specs.internal.Spaces_fields.{spaces_view, IsSpaces};

    ghost view = { spaces_view };

    ghost invariant = { IsSpaces };
}

impl Spaces {
    /// No dataspaces, over all these frames; those that are taken stay so. It makes tables of 18 numbers for each frame. `Err` where the host refuses
    /// memory for them; then the frames are dropped.
    pub fn new(alloc: Global, pages: Pages) -> Result<Spaces, AllocError>
        ensures none { IfOk result (λ s. s.spaces ≡ all_free (length pages)) }
        ensures free { IfOk result (λ s. s.free ≡ count_free pages) }
    {
        let table = FrameLists::new(alloc, pages.frame_count())?;
        Ok(Spaces { pages, table })
    }

    /// How many frames are free.
    pub fn free_frames(&self) -> u32
        ensures free { result ≡ self.now.free }
        ensures few { result ≤ 16384 }
    {
        self.pages.free_count()
    }

    /// Makes a dataspace of `n` bytes in whole pages, each byte 0. `NoFrames` just where fewer frames are free than it needs; then all stays as it was.
    pub fn create(&mut self, n: u64) -> Result<DsId, SpaceFault>
        requires { (1 ≤ n) × (n ≤ 2 ^ 40) }
        ensures was_vacant { IfOk result (λ ds. IsVacant self.old.spaces ds.0) }
        ensures made { IfOk result (λ ds. self.new.spaces ≡ slice_set self.old.spaces ds.0 (Some (zeros (up n)))) }
        ensures size { IfOk result (λ ds. length (content_of self.new.spaces ds.0) ≡ up n) }
        ensures paid { OnOk result (self.old.free * 4096 ≡ self.new.free * 4096 + up n) }
        ensures enough { IsOk result ↔ (up n ≤ self.old.free * 4096) }
        ensures unchanged { OnErr result (self.new ≡ self.old) }
    {
        let pages = round_up(n) / u64::from(FRAME_SIZE);
        if u64::from(self.free_frames()) < pages {
            return Err(SpaceFault::NoFrames);
        }
        let new = self.has_run(pages);
        let ds = self.begin(new);
        for _page in 1..pages {
            self.extend(ds, new);
        }
        Ok(ds)
    }

    /// Removes a dataspace. All its frames are free again.
    pub fn destroy(&mut self, ds: DsId)
        requires { IsLive self.old.spaces ds.0 }
        ensures gone { self.new.spaces ≡ slice_set self.old.spaces ds.0 None }
        ensures given { self.new.free * 4096 ≡ self.old.free * 4096 + length (content_of self.old.spaces ds.0) }
    {
        let count = self.table.count(ds.0);
        for _page in 0..count {
            self.shorten(ds);
        }
    }

    /// The size of a dataspace in bytes, whole pages.
    pub fn size(&self, ds: DsId) -> u64
        requires { IsLive self.now.spaces ds.0 }
        ensures bytes { result ≡ length (content_of self.now.spaces ds.0) }
        ensures whole { result % 4096 ≡ 0 }
    {
        u64::from(FRAME_SIZE) * u64::from(self.table.count(ds.0))
    }

    /// The byte at `offset`.
    pub fn load(&self, ds: DsId, offset: u32) -> u8
        requires { offset < length (content_of self.now.spaces ds.0) }
        ensures { result ≡ slice_index (content_of self.now.spaces ds.0) offset }
    {
        let frame = self.table.frame(ds.0, offset / FRAME_SIZE);
        self.pages.byte(FrameNo(frame), offset % FRAME_SIZE)
    }

    /// Writes the byte at `offset`.
    pub fn store(&mut self, ds: DsId, offset: u32, byte: u8)
        requires { offset < length (content_of self.old.spaces ds.0) }
        ensures written { self.new.spaces ≡ slice_set self.old.spaces ds.0 (Some (slice_set (content_of self.old.spaces ds.0) offset byte)) }
        ensures same_size { length (content_of self.new.spaces ds.0) ≡ length (content_of self.old.spaces ds.0) }
        ensures as_many { self.new.free ≡ self.old.free }
    {
        let frame = self.table.frame(ds.0, offset / FRAME_SIZE);
        self.pages
            .set_byte(FrameNo(frame), offset % FRAME_SIZE, byte);
    }

    /// The number in the four bytes from `offset` on, the lowest first.
    pub fn load4(&self, ds: DsId, offset: u32) -> u32
        requires { offset + 4 ≤ length (content_of self.now.spaces ds.0) }
        ensures { result ≡ word_at (content_of self.now.spaces ds.0) offset }
    {
        if offset % FRAME_SIZE <= FRAME_SIZE - 4 {
            let frame = self.table.frame(ds.0, offset / FRAME_SIZE);
            return self.pages.word(FrameNo(frame), offset % FRAME_SIZE);
        }
        self.load_across(ds, offset)
    }

    /// Writes a number to the four bytes from `offset` on, the lowest first.
    pub fn store4(&mut self, ds: DsId, offset: u32, word: u32)
        requires { offset + 4 ≤ length (content_of self.old.spaces ds.0) }
        ensures written { self.new.spaces ≡ slice_set self.old.spaces ds.0 (Some (with_bytes (content_of self.old.spaces ds.0) offset (to_le_bytes w32 word))) }
        ensures same_size { length (content_of self.new.spaces ds.0) ≡ length (content_of self.old.spaces ds.0) }
        ensures as_many { self.new.free ≡ self.old.free }
    {
        if offset % FRAME_SIZE <= FRAME_SIZE - 4 {
            let frame = self.table.frame(ds.0, offset / FRAME_SIZE);
            self.pages
                .set_word(FrameNo(frame), offset % FRAME_SIZE, word);
            return;
        }
        self.store_across(ds, offset, word);
    }

    /// Clears `size` bytes from `offset` on: each becomes 0.
    pub fn clear(&mut self, ds: DsId, offset: u32, size: u32)
        requires some { 1 ≤ size }
        requires inside { offset + size ≤ length (content_of self.old.spaces ds.0) }
        ensures written { self.new.spaces ≡ slice_set self.old.spaces ds.0 (Some (zeroed (content_of self.old.spaces ds.0) offset size)) }
        ensures same_size { length (content_of self.new.spaces ds.0) ≡ length (content_of self.old.spaces ds.0) }
        ensures as_many { self.new.free ≡ self.old.free }
    {
        let room = FRAME_SIZE - offset % FRAME_SIZE;
        if size <= room {
            self.clear_within(ds, offset, size);
            return;
        }
        self.clear_within(ds, offset, room);
        self.clear(ds, offset + room, size - room);
    }

    // Clears bytes of one page.
    fn clear_within(&mut self, ds: DsId, offset: u32, size: u32)
        requires some { 1 ≤ size }
        requires inside { offset + size ≤ length (content_of self.old.spaces ds.0) }
        requires within { offset % 4096 + size ≤ 4096 }
        ensures written { self.new.spaces ≡ slice_set self.old.spaces ds.0 (Some (zeroed (content_of self.old.spaces ds.0) offset size)) }
        ensures same_size { length (content_of self.new.spaces ds.0) ≡ length (content_of self.old.spaces ds.0) }
        ensures few { offset + size ≤ 2 ^ 26 }
        ensures as_many { self.new.free ≡ self.old.free }
    {
        let frame = self.table.frame(ds.0, offset / FRAME_SIZE);
        self.pages.clear(FrameNo(frame), offset % FRAME_SIZE, size);
    }

    // The number in four bytes of two frames, which is rare.
    #[cold]
    #[inline(never)]
    fn load_across(&self, ds: DsId, offset: u32) -> u32
        requires inside { offset + 4 ≤ length (content_of self.now.spaces ds.0) }
        requires fits { offset + 4 ≤ 2 ^ 26 }
        ensures { result ≡ word_at (content_of self.now.spaces ds.0) offset }
    {
        u32::from_le_bytes([
            self.load(ds, offset),
            self.load(ds, offset + 1),
            self.load(ds, offset + 2),
            self.load(ds, offset + 3),
        ])
    }

    // Writes a number to four bytes of two frames.
    #[cold]
    #[inline(never)]
    fn store_across(&mut self, ds: DsId, offset: u32, word: u32)
        requires inside { offset + 4 ≤ length (content_of self.old.spaces ds.0) }
        requires fits { offset + 4 ≤ 2 ^ 26 }
        ensures written { self.new.spaces ≡ slice_set self.old.spaces ds.0 (Some (with_bytes (content_of self.old.spaces ds.0) offset (to_le_bytes w32 word))) }
        ensures same_size { length (content_of self.new.spaces ds.0) ≡ length (content_of self.old.spaces ds.0) }
        ensures as_many { self.new.free ≡ self.old.free }
    {
        let [a, b, c, d] = word.to_le_bytes();
        self.store(ds, offset, a);
        self.store(ds, offset + 1, b);
        self.store(ds, offset + 2, c);
        self.store(ds, offset + 3, d);
    }

    // Whether so many frames that follow one another were never handed out; one page is the same anywhere.
    fn has_run(&self, pages: u64) -> bool {
        1 < pages && pages <= u64::from(self.pages.new_count())
    }

    // Makes a dataspace of one page.
    fn begin(&mut self, new: bool) -> DsId
        requires { 0 < self.old.free }
        ensures was_vacant { IsVacant self.old.spaces result.0 }
        ensures made { self.new.spaces ≡ slice_set self.old.spaces result.0 (Some (zeros 4096)) }
        ensures one_fewer { self.old.free ≡ self.new.free + 1 }
    {
        let frame = next_frame(&mut self.pages, new);
        self.table.push(frame.0, frame.0);
        DsId(frame.0)
    }

    // Adds a page at the end of a dataspace.
    fn extend(&mut self, ds: DsId, new: bool)
        requires live { IsLive self.old.spaces ds.0 }
        requires few { length (content_of self.old.spaces ds.0) < 16384 * 4096 }
        requires free { 0 < self.old.free }
        ensures longer { self.new.spaces ≡ slice_set self.old.spaces ds.0 (Some (content_of self.old.spaces ds.0 ++ zeros 4096)) }
        ensures one_fewer { self.old.free ≡ self.new.free + 1 }
    {
        let frame = next_frame(&mut self.pages, new);
        self.table.push(ds.0, frame.0);
    }

    // Takes the last page off a dataspace, and the dataspace with its last one.
    fn shorten(&mut self, ds: DsId)
        requires { IsLive self.old.spaces ds.0 }
        ensures shorter { self.new.spaces ≡ slice_set self.old.spaces ds.0 (shorter (content_of self.old.spaces ds.0)) }
        ensures one_more { self.new.free ≡ self.old.free + 1 }
    {
        let frame = self.table.pop(ds.0);
        self.pages.give(FrameNo(frame));
    }
}

// Takes a frame, one that was never handed out where `new` says so and there is one.
#[inline(always)]
fn next_frame(pages: &mut Pages, new: bool) -> FrameNo
    requires { 0 < count_free pages.old }
    ensures was_free { IsFree pages.old result.0 }
    ensures cleared { pages.new ≡ slice_set pages.old result.0 (Some zero_frame) }
    ensures one_fewer { count_free pages.old ≡ count_free pages.new + 1 }
{
    let taken = if new { pages.take_new() } else { pages.take() };
    let Ok(frame) = taken else {
        unreachable!();
    };
    frame
}
