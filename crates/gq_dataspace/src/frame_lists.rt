// The frames of each dataspace, of which the first ones mostly follow one another: then no link is read.
ghost use Rattle.std.specs.Prelude.{◌≡◌, [], ◌∷◌, ◌++◌, ◌+◌, ◌⊎◌, ◌<◌, ◌≤◌, ◌^◌, length, replicate, slice_index, slice_set, IfOk};
ghost use Rattle.gq_dataspace.specs.internal.Frame_lists.{list_at, AreApart, IsOwn};

use crate::frames::FrameTable;
use std::alloc::{AllocError, Global};
use std::marker::Model;

// The lists of a `FrameTable`, and beside each how many frames at its start are its own number, the next one, and so on: its run.
#[derive(Drop)]
pub(crate) struct FrameLists {
    table: FrameTable,
    runs: Vec<u32>,
}

impl Model for FrameLists {
    ghost use Rattle.std.specs.Prelude.{List, ℕ};

    ghost Value = { List (List ℕ) };

    ghost use Rattle.gq_dataspace.specs.internal.Runs.{lists_view, HasRuns};

    ghost view = { lists_view };

    ghost invariant = { HasRuns };
}

impl FrameLists {
    // A list for each of so many frames, none of which has an entry.
    pub(crate) fn new(alloc: Global, frames: u32) -> Result<FrameLists, AllocError>
        requires { frames ≤ 16384 }
        ensures { IfOk result (λ t. t ≡ replicate frames []) }
    {
        let table = FrameTable::new(alloc, frames)?;
        let runs = Vec::from_elem(alloc, 0, frames as usize)?;
        Ok(FrameLists { table, runs })
    }

    // How many frames the list of `first` has.
    pub(crate) fn count(&self, first: u32) -> u32
        requires { first < length self.now }
        ensures { result ≡ length (list_at self.now first) }
    {
        self.table.count(first)
    }

    // The frame at `index` of the list of `first`.
    #[inline(always)]
    pub(crate) fn frame(&self, first: u32, index: u32) -> u32
        requires { index < length (list_at self.now first) }
        ensures value { result ≡ slice_index (list_at self.now first) index }
        ensures below { result < length self.now }
    {
        if index < self.runs[first as usize] {
            return first + index;
        }
        self.table.frame(first, index)
    }

    // Adds a frame at the end of the list of `first`.
    pub(crate) fn push(&mut self, first: u32, frame: u32)
        requires there { first < length self.old }
        requires below { frame < length self.old }
        requires few { length (list_at self.old first) + 1 < 2 ^ 32 }
        requires apart { AreApart self.old }
        requires own { IsOwn self.old first }
        ensures { self.new ≡ slice_set self.old first (list_at self.old first ++ frame ∷ []) }
    {
        let count = self.table.count(first);
        self.table.push(first, frame);
        self.runs[first as usize] = longer(self.runs[first as usize], first, count, frame);
    }

    // Takes the last frame off the list of `first`.
    pub(crate) fn pop(&mut self, first: u32) -> u32
        requires { 0 < length (list_at self.old first) }
        ensures last { list_at self.old first ≡ list_at self.new first ++ result ∷ [] }
        ensures alone { self.new ≡ slice_set self.old first (list_at self.new first) }
    {
        let frame = self.table.pop(first);
        let count = self.table.count(first);
        self.runs[first as usize] = at_most(self.runs[first as usize], count);
        frame
    }
}

// The run of a list of `count` frames that gets one more.
fn longer(run: u32, first: u32, count: u32, frame: u32) -> u32
    requires { count + 1 < 2 ^ 32 }
    ensures { (result ≡ run) ⊎ ((result ≡ count + 1) × (run ≡ count) × (frame ≡ first + count)) }
{
    if run == count && frame >= first && frame - first == count {
        count + 1
    } else {
        run
    }
}

// The run of a list that has `count` frames left.
fn at_most(run: u32, count: u32) -> u32
    ensures run { result ≤ run }
    ensures count { result ≤ count }
{
    if run > count { count } else { run }
}
