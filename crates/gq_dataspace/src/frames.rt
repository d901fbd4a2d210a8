// The frames of each dataspace, in two tables of a fixed size. Nothing here knows what the frames have in them.
ghost use Rattle.std.specs.Prelude.{◌≡◌, [], ◌∷◌, ◌++◌, ◌+◌, ◌*◌, ◌<◌, ◌≤◌, ◌^◌, length, replicate, slice_index, slice_set, IfOk};
ghost use Rattle.gq_dataspace.specs.internal.Frame_lists.{list_at, AreApart, IsOwn};
ghost use Rattle.gq_dataspace.specs.internal.List_trees.{parent_at};

use std::alloc::{AllocError, Global};
use std::marker::Model;

// How many links each frame has.
const LINKS: u32 = 16;

// A list of frames for each frame: those of the dataspace that begins with it, in order. A contract sees these lists.
// The frames of a list are a tree: the frame at `i` has links to those at `16 * i` to `16 * i + 15`, which are all but the first.
#[derive(Drop)]
pub(crate) struct FrameTable {
    links: Vec<u32>,
    counts: Vec<u32>,
}

impl Model for FrameTable {
    ghost use Rattle.std.specs.Prelude.{List, ℕ};

    ghost Value = { List (List ℕ) };

    ghost use Rattle.gq_dataspace.specs.internal.Link_table.{table_view, IsTable};

    ghost view = { table_view };

    ghost invariant = { IsTable };
}

impl FrameTable {
    // A list for each of so many frames, none of which has an entry.
    pub(crate) fn new(alloc: Global, frames: u32) -> Result<FrameTable, AllocError>
        requires { frames ≤ 16384 }
        ensures { IfOk result (λ t. t ≡ replicate frames []) }
    {
        let links = Vec::from_elem(alloc, 0, (LINKS * frames) as usize)?;
        let counts = Vec::from_elem(alloc, 0, frames as usize)?;
        Ok(FrameTable { links, counts })
    }

    // How many frames the list of `first` has.
    pub(crate) fn count(&self, first: u32) -> u32
        requires { first < length self.now }
        ensures { result ≡ length (list_at self.now first) }
    {
        self.counts[first as usize]
    }

    // The frame at `index` of the list of `first`.
    pub(crate) fn frame(&self, first: u32, index: u32) -> u32
        requires { index < length (list_at self.now first) }
        ensures value { result ≡ slice_index (list_at self.now first) index }
        ensures below { result < length self.now }
    {
        let parent = self.near_parent(first, index);
        self.links[(LINKS * parent + index % LINKS) as usize]
    }

    // Adds a frame at the end of the list of `first`.
    pub(crate) fn push(&mut self, first: u32, frame: u32)
        requires there { first < length self.old }
        requires below { frame < length self.old }
        requires few { length (list_at self.old first) + 1 < 2 ^ 32 }
        requires apart { AreApart self.old }
        requires own { IsOwn self.old first }
        ensures { self.new ≡ slice_set self.old first (list_at self.old first ++ frame ∷ []) }
    {
        let count = self.counts[first as usize];
        let parent = self.near_parent(first, count);
        self.links[(LINKS * parent + count % LINKS) as usize] = frame;
        self.counts[first as usize] = count + 1;
    }

    // Takes the last frame off the list of `first`.
    pub(crate) fn pop(&mut self, first: u32) -> u32
        requires { 0 < length (list_at self.old first) }
        ensures last { list_at self.old first ≡ list_at self.new first ++ result ∷ [] }
        ensures alone { self.new ≡ slice_set self.old first (list_at self.new first) }
    {
        let last = self.counts[first as usize] - 1;
        let frame = self.frame(first, last);
        self.counts[first as usize] = last;
        frame
    }

    // The frame that has the link to the one at `index` of the list of `first`. The digits of its index in base 16 are the way to it.
    fn parent(&self, first: u32, index: u32) -> u32
        requires there { first < length self.now }
        requires within { index ≤ length (list_at self.now first) }
        ensures value { result ≡ parent_at (list_at self.now first) first index }
        ensures below { result < length self.now }
    {
        if index < LINKS {
            return first;
        }
        let above = index / LINKS;
        let parent = self.parent(first, above);
        self.links[(LINKS * parent + above % LINKS) as usize]
    }

    // The same, where no call is made for the first 256 frames.
    #[inline(always)]
    fn near_parent(&self, first: u32, index: u32) -> u32
        requires there { first < length self.now }
        requires within { index ≤ length (list_at self.now first) }
        ensures value { result ≡ parent_at (list_at self.now first) first index }
        ensures below { result < length self.now }
    {
        if index < LINKS {
            return first;
        }
        let above = index / LINKS;
        let parent = self.first_or_parent(first, above);
        self.links[(LINKS * parent + above % LINKS) as usize]
    }

    // The same, where no call is made for the first 16 frames.
    #[inline(always)]
    fn first_or_parent(&self, first: u32, index: u32) -> u32
        requires there { first < length self.now }
        requires within { index ≤ length (list_at self.now first) }
        ensures value { result ≡ parent_at (list_at self.now first) first index }
        ensures below { result < length self.now }
    {
        if index < LINKS {
            return first;
        }
        self.parent(first, index)
    }
}
