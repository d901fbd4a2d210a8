// Leaves that end, over all slots of a scenario.
ghost use Rattle.std.specs.Prelude.{◌≡◌, ◌<◌, length, replicate, slice_set};
ghost use Rattle.gq_contents.specs.declared.content.Content.TheVariants as content;
ghost use Rattle.gq_trade.specs.Leaf_ends.{HasNoSessions};
ghost use Rattle.gq_trade.specs.Trades.{IsLive};
ghost use Rattle.gq_slots.specs.Session_calls.{EndsLeaf};

use crate::slots::Slots;
use gq_contents::Content;
use gq_heap::Heap;

/// Ends a leaf from which and to which there is no session. Its slots are empty, its account is closed with all that it has in memory, and its quota of both
/// kinds goes to its init. A node that starts after it has its quantum from now on.
pub fn end(slots: &mut Slots, leaf: usize)
    requires leaf { IsLive slots.old.trades leaf }
    requires alone { HasNoSessions slots.old.trades.trading leaf }
    ensures { EndsLeaf slots.old slots.new leaf }
{
    slots.trades.laws();
    slots.trades.accounts().laws();
    slots.trades.end(leaf);
    slots.trades.accounts().laws();
    clear_all(&mut slots.own, leaf);
    slots.heaps[leaf] = Heap::new();
}

// Makes all slots of a leaf empty.
fn clear_all(own: &mut Vec<[Content; 64]>, leaf: usize)
    requires { leaf < length own.old.items }
    ensures { own.new.items ≡ slice_set own.old.items leaf (replicate 64 content.Empty) }
{
    own[leaf] = [Content::Empty; 64];
}
