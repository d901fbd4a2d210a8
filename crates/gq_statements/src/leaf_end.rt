// Leaves that end.
ghost use Rattle.std.specs.Prelude.{◌≡◌, None, OnErr, OnOk};
ghost use Rattle.gq_model.specs.machine.Doing.{Doing};
ghost use Rattle.gq_model.specs.machine.Step as step;
ghost use Rattle.gq_trade.specs.Trades.{IsLive};
ghost use Rattle.gq_slots.specs.Slots.{Frame, world_seen};
ghost use Rattle.gq_slots.specs.Session_calls.{EndsLeaf};
ghost use Rattle.gq_statements.specs.Serving.{IsAloneWithoutLinks, IsReleased, finished, own_slots};
ghost use Rattle.gq_statements.specs.internal.Content_tests.{has_no_link, is_link};

use gq_contents::Content;
use gq_model::fault::Wrong;
use gq_slots::{Slots, ending_leaves};
use gq_trade::SlotId;

/// The end of `main` of a leaf that provides no service and has no signals. It holds nothing from now on, its account is closed, and who starts after it
/// has its quantum.
///
/// `WrongKind` where a slot of its own is a link: it has not closed the session. Then nothing changes.
pub fn exit(slots: &mut Slots, leaf: usize) -> Result<(), Wrong>
    requires live { IsLive slots.old.trades leaf }
    requires alone { IsAloneWithoutLinks slots.old leaf }
    ensures ended { (f : Frame) (d : Doing) → d.x ≡ leaf → IsReleased d f slots.old → step.main_ended d None 0 ≡ finished result (world_seen f slots.new) }
    ensures ends { OnOk result (EndsLeaf slots.old slots.new leaf) }
    ensures unchanged { OnErr result (slots.new ≡ slots.old) }
{
    slots.laws();
    if !has_no_link(slots, leaf) {
        return Err(Wrong::WrongKind);
    }
    ending_leaves::end(slots, leaf);
    Ok(())
}

// Whether none of a leaf's own slots is a link.
fn has_no_link(slots: &Slots, leaf: usize) -> bool
    requires { IsLive slots.now.trades leaf }
    ensures { result ≡ has_no_link (own_slots slots.now leaf) }
{
    slots.laws();
    for slot in 0..64_u8 {
        if is_link(slots.content(SlotId::InLeaf(leaf, slot))) {
            return false;
        }
    }
    true
}

// Whether it is a link.
fn is_link(content: Content) -> bool
    ensures { result ≡ is_link content }
{
    match content {
        Content::Link(_) => true,
        Content::Empty
        | Content::Block(_, _)
        | Content::Slice(_, _)
        | Content::Space(_, _)
        | Content::Pool(_)
        | Content::Waiting(_) => false,
    }
}
