// Frames as a map from numbers to bytes. Those that were given back are chained through their own first words, and
// those that were never handed out are counted, so that making the frames touches none of them.
ghost use Rattle.std.specs.Prelude.{◌≡◌, ℕ, ◌+◌, ◌<◌, ◌≤◌, length, Some, None, slice_index, slice_set, IfOk, OnOk, OnErr, IsOk};
ghost use Rattle.std.specs.Int.{w32, to_le_bytes};
ghost use Rattle.gq_pages.specs.Frame_bytes.{word_at, with_bytes, zeroed};
ghost use Rattle.gq_pages.specs.Frame_map.{all_free, zero_frame, IsFree, IsTaken, bytes_of, count_free};

use crate::region::Region;
use gq_tariff::price::PAGE;
use std::alloc::{AllocError, Global};
use std::marker::Model;
use thiserror::Error;

// The bytes of a frame, which is a page, as an index.
const FRAME_SIZE: usize = PAGE as usize;

/// The number of a frame, from 0 on.
#[derive(Clone, Copy, Debug, PartialEq, Eq)]
pub struct FrameNo(pub u32);

/// No frame is free.
#[derive(Clone, Copy, Debug, PartialEq, Eq, Error)]
#[error("no frame is free")]
pub struct NoFrame;

/// Frames of 4096 bytes each, in one block of host memory. A contract sees a list with an entry for each frame: its bytes where
/// it is taken, or `None` where it is free. No call but `new` allocates host memory.
#[derive(Drop)]
pub struct Pages {
    region: Region,
    frames: u32,
    // So many frames, the first ones, were handed out at least once. The others are free.
    touched: u32,
    // So many of these are free. They are chained: the first four bytes of each are the link to the next, which is its
    // number and one, or 0 at the end. `first` is the link to the first.
    chained: u32,
    first: u32,
}

impl Model for Pages {
    ghost use Rattle.std.specs.Prelude.{List, Option, ℕ};

    ghost Value = { List (Option (List ℕ)) };

    ghost use Rattle.gq_pages.specs.internal.Pages.{pages_view, IsPages};

    ghost view = { pages_view };

    ghost invariant = { IsPages };
}

impl Pages {
    /// `frames` frames, each free, in a block of `frames × 4096` bytes of host memory, which is not touched yet. `Err` where the
    /// host refuses it.
    pub fn new(alloc: Global, frames: u32) -> Result<Pages, AllocError>
        requires { (1 ≤ frames) × (frames ≤ 16384) }
        ensures { IfOk result (λ p. p ≡ all_free frames) }
    {
        let Some(region) = Region::new(alloc, frames as usize * FRAME_SIZE) else {
            return Err(AllocError);
        };
        Ok(Pages {
            region,
            frames,
            touched: 0,
            chained: 0,
            first: 0,
        })
    }

    /// How many frames there are, free or taken.
    pub fn frame_count(&self) -> u32
        ensures all { result ≡ length self.now }
        ensures few { result ≤ 16384 }
    {
        self.frames
    }

    /// How many frames are free.
    pub fn free_count(&self) -> u32
        ensures free { result ≡ count_free self.now }
        ensures within { result ≤ length self.now }
    {
        self.chained + (self.frames - self.touched)
    }

    /// What holds of all frames: one that is taken has 4096 bytes. It does nothing.
    pub fn laws(&self)
        ensures { (k : ℕ) → IsTaken self.now k → length (bytes_of self.now k) ≡ 4096 }
    {
        let _frames = self.frames;
    }

    /// Takes a frame that was free, and clears it. `NoFrame` just where no frame is free; then all stays as it was.
    pub fn take(&mut self) -> Result<FrameNo, NoFrame>
        ensures was_free { IfOk result (λ frame. IsFree self.old frame.0) }
        ensures cleared { IfOk result (λ frame. self.new ≡ slice_set self.old frame.0 (Some zero_frame)) }
        ensures one_fewer { OnOk result (count_free self.old ≡ count_free self.new + 1) }
        ensures succeeds { 0 < count_free self.old → IsOk result }
        ensures none_free { OnErr result (count_free self.old ≡ 0) }
        ensures unchanged { OnErr result (self.new ≡ self.old) }
    {
        if self.first != 0 {
            let number = self.first - 1;
            let next = self.region.word(number as usize * FRAME_SIZE);
            self.region.zero(number as usize * FRAME_SIZE, FRAME_SIZE);
            self.first = next;
            self.chained -= 1;
            return Ok(FrameNo(number));
        }
        if self.touched == self.frames {
            return Err(NoFrame);
        }
        let number = self.touched;
        self.region.extend(number as usize * FRAME_SIZE, FRAME_SIZE);
        self.touched += 1;
        Ok(FrameNo(number))
    }

    /// How many frames were never handed out. They follow one another, and `take_new` takes the first of them.
    pub fn new_count(&self) -> u32
        ensures { result ≤ count_free self.now }
    {
        let all = self.frames;
        all - self.touched
    }

    /// Takes a frame as `take` does, but one that was never handed out where there is one: frames that are taken so follow one another.
    pub fn take_new(&mut self) -> Result<FrameNo, NoFrame>
        ensures was_free { IfOk result (λ frame. IsFree self.old frame.0) }
        ensures cleared { IfOk result (λ frame. self.new ≡ slice_set self.old frame.0 (Some zero_frame)) }
        ensures one_fewer { OnOk result (count_free self.old ≡ count_free self.new + 1) }
        ensures succeeds { 0 < count_free self.old → IsOk result }
        ensures none_free { OnErr result (count_free self.old ≡ 0) }
        ensures unchanged { OnErr result (self.new ≡ self.old) }
    {
        if self.touched < self.frames {
            let number = self.touched;
            self.region.extend(number as usize * FRAME_SIZE, FRAME_SIZE);
            self.touched = number + 1;
            return Ok(FrameNo(number));
        }
        self.take()
    }

    /// Frees a frame that is taken.
    pub fn give(&mut self, frame: FrameNo)
        requires { IsTaken self.old frame.0 }
        ensures freed { self.new ≡ slice_set self.old frame.0 None }
        ensures one_more { count_free self.new ≡ count_free self.old + 1 }
    {
        self.region
            .set_word(frame.0 as usize * FRAME_SIZE, self.first);
        self.first = frame.0 + 1;
        self.chained += 1;
    }

    /// The byte at `offset` of a taken frame.
    pub fn byte(&self, frame: FrameNo, offset: u32) -> u8
        requires { IsTaken self.now frame.0 × (offset < 4096) }
        ensures { result ≡ slice_index (bytes_of self.now frame.0) offset }
    {
        self.region
            .byte(frame.0 as usize * FRAME_SIZE + offset as usize)
    }

    /// Writes the byte at `offset` of a taken frame.
    pub fn set_byte(&mut self, frame: FrameNo, offset: u32, byte: u8)
        requires { IsTaken self.old frame.0 × (offset < 4096) }
        ensures written { self.new ≡ slice_set self.old frame.0 (Some (slice_set (bytes_of self.old frame.0) offset byte)) }
        ensures as_many { count_free self.new ≡ count_free self.old }
    {
        self.region
            .set_byte(frame.0 as usize * FRAME_SIZE + offset as usize, byte);
    }

    /// The number in the four bytes from `offset` on of a taken frame, the lowest first.
    pub fn word(&self, frame: FrameNo, offset: u32) -> u32
        requires { IsTaken self.now frame.0 × (offset ≤ 4092) }
        ensures { result ≡ word_at (bytes_of self.now frame.0) offset }
    {
        self.region
            .word(frame.0 as usize * FRAME_SIZE + offset as usize)
    }

    /// Writes a number to the four bytes from `offset` on of a taken frame, the lowest first.
    pub fn set_word(&mut self, frame: FrameNo, offset: u32, word: u32)
        requires { IsTaken self.old frame.0 × (offset ≤ 4092) }
        ensures written { self.new ≡ slice_set self.old frame.0 (Some (with_bytes (bytes_of self.old frame.0) offset (to_le_bytes w32 word))) }
        ensures as_many { count_free self.new ≡ count_free self.old }
    {
        self.region
            .set_word(frame.0 as usize * FRAME_SIZE + offset as usize, word);
    }

    /// Clears a taken frame: each of its bytes becomes 0.
    pub fn zero(&mut self, frame: FrameNo)
        requires { IsTaken self.old frame.0 }
        ensures cleared { self.new ≡ slice_set self.old frame.0 (Some zero_frame) }
        ensures as_many { count_free self.new ≡ count_free self.old }
    {
        self.region.zero(frame.0 as usize * FRAME_SIZE, FRAME_SIZE);
    }

    /// Clears `size` bytes of a taken frame, from `offset` on: each becomes 0.
    pub fn clear(&mut self, frame: FrameNo, offset: u32, size: u32)
        requires { IsTaken self.old frame.0 × (offset + size ≤ 4096) }
        ensures cleared { self.new ≡ slice_set self.old frame.0 (Some (zeroed (bytes_of self.old frame.0) offset size)) }
        ensures as_many { count_free self.new ≡ count_free self.old }
    {
        self.region.zero(
            frame.0 as usize * FRAME_SIZE + offset as usize,
            size as usize,
        );
    }
}
