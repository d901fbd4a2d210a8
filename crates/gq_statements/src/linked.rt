// What slots report whose world is linked.
ghost use Rattle.std.specs.Prelude.{◌≡◌, ℕ, ◌<◌, ◌≤◌, List, length, Some};
ghost use Rattle.gq_model.specs.declared.phase.Phase.TheVariants.{Blocked, Running};
ghost use Rattle.gq_model.specs.machine.Scenario.{System};
ghost use Rattle.gq_model.specs.machine.World as world;
ghost use Rattle.gq_laws.specs.Session_links.{IsLinkedWorld};
ghost use Rattle.gq_trade.specs.Numbers.{IsTaken, free_number};
ghost use Rattle.gq_trade.specs.declared.requests.Request.{Request};
ghost use Rattle.gq_trade.specs.Queues.{oldest_to};
ghost use Rattle.gq_contents.specs.declared.content.Content.TheVariants as content;
ghost use Rattle.gq_trade.specs.declared.session.SlotId.{SlotId};
ghost use Rattle.gq_trade.specs.declared.session.SlotId.TheVariants.{InLeaf};
ghost use Rattle.gq_trade.specs.Leaf_ends.{HasNoSessions};
ghost use Rattle.gq_trade.specs.Waiting.{IsIdle};
ghost use Rattle.gq_slots.specs.Slots.{AreLong, AreSound, Frame, IsSlotId, Slots, content_at, world_seen};
ghost use Rattle.gq_statements.specs.Systems.{AreLawful};
ghost use Rattle.gq_statements.specs.Linked.{IsAsked, IsAwaited, IsHandled, IsInSlot, IsSlotOf, Names, ProvidesNothing};

/// Sessions and the slots that name them.
///
/// `links`: a slot that leads to a session or waits for a reply from it is that session's, which is there, and the leaf that pays for the slot is the
/// session's client.
///
/// `sessions`: a session stands in a slot of its client. In it is a link to the session where the session is accepted and no request of it waits or is at
/// current at its server; else a mark that the slot waits.
pub fn linked_sessions()
    ensures links { (system : System) (f : Frame) (s : Slots) (p : SlotId) (k : ℕ) → AreLawful s → IsLinkedWorld system (world_seen f s) → IsSlotId s p
        → Names (content_at s p) k → IsSlotOf s p k }
    ensures sessions { (system : System) (f : Frame) (s : Slots) (k : ℕ) → AreLawful s → IsLinkedWorld system (world_seen f s) → AreLong s
        → IsTaken s.trades.trading.sessions k → IsInSlot f s k }
{}

/// Requests that wait.
///
/// `idle`: no request of a leaf waits that is not blocked.
///
/// `awaited`: of a session whose slot waits the client is blocked.
///
/// `oldest`: the oldest request to a leaf is of a session to it that is there. Its client is blocked, and its slot waits. Where the request is to open,
/// the session is not accepted and has no object; else it is accepted.
pub fn linked_requests()
    ensures idle { (system : System) (f : Frame) (s : Slots) (x : ℕ) → AreLawful s → IsLinkedWorld system (world_seen f s)
        → ((f.leaf x).phase ≡ Blocked → ⊥) → IsIdle s.trades.trading x }
    ensures awaited { (system : System) (f : Frame) (s : Slots) (p : SlotId) (k : ℕ) → AreLawful s → IsLinkedWorld system (world_seen f s) → IsSlotId s p
        → content_at s p ≡ content.Waiting k → IsAwaited f s k }
    ensures oldest { (system : System) (f : Frame) (s : Slots) (x : ℕ) (r : Request) (rest : List Request) → AreLawful s
        → IsLinkedWorld system (world_seen f s) → AreSound s.trades.trading → oldest_to x s.trades.trading.requests ≡ Some (r, rest)
        → IsAsked f s x r }
{}

/// Leaves.
///
/// `all_current`: what is current at a leaf is an accepted session to it, with an object that is no pool. No request of the session waits; its client is
/// blocked,
/// and its slot waits.
///
/// `ends`: a running leaf that has no link, and to which no component's route leads, has no session, neither as a client nor as a server.
pub fn linked_leaves()
    ensures all_current { (system : System) (f : Frame) (s : Slots) (x : ℕ) (current : world.Current) → AreLawful s → IsLinkedWorld system (world_seen f s)
        → x < length s.own → (f.leaf x).current ≡ Some current → IsHandled f s x current }
    ensures ends { (system : System) (f : Frame) (s : Slots) (x : ℕ) → AreLawful s → IsLinkedWorld system (world_seen f s) → AreLong s
        → (f.leaf x).phase ≡ Running → ((i k : ℕ) → i < 64 → content_at s (InLeaf x i) ≡ content.Link k → ⊥) → ProvidesNothing system x
        → HasNoSessions s.trades.trading x }
{}

/// There are at most 16448 sessions at a time. At most 64 are not accepted, since each has a request of another leaf. At most 16384 are, since the server of
/// each pays at least 4096 bytes for its object.
pub fn few_sessions()
    ensures { (system : System) (f : Frame) (s : Slots) → AreLawful s → IsLinkedWorld system (world_seen f s) → AreSound s.trades.trading
        → free_number s.trades.trading.sessions ≤ 16448 }
{}
