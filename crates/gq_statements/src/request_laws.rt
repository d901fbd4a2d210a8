// Laws of requests: where slots refuse one for want of quota, the abstract machine's world with it is not paid for.
ghost use Rattle.std.specs.Prelude.{◌≡◌, ℕ, ◌<◌, List, length, Some, false};
ghost use Rattle.gq_tariff.specs.declared.amount.Amount.{Amount};
ghost use Rattle.gq_model.specs.machine.Amounts.{Resource};
ghost use Rattle.gq_model.specs.machine.Scenario.{System};
ghost use Rattle.gq_model.specs.machine.Sums.{paid, slot_price};
ghost use Rattle.gq_model.specs.machine.World as world;
ghost use Rattle.gq_trade.specs.Numbers.{IsTaken};
ghost use Rattle.gq_pool.specs.declared.pool.Pool.{Pool};
ghost use Rattle.gq_ram.specs.Account_table.{available, available_caps};
ghost use Rattle.gq_trade.specs.declared.requests.Ask.TheVariants as ask;
ghost use Rattle.gq_trade.specs.declared.requests.Request.{Request};
ghost use Rattle.gq_trade.specs.Queues.{oldest_to};
ghost use Rattle.gq_contents.specs.declared.content.Content.TheVariants as content;
ghost use Rattle.gq_trade.specs.declared.session.SlotId.TheVariants.{InSession};
ghost use Rattle.gq_trade.specs.Trading.{LacksBytes, LacksCaps, bytes_then, caps_then, client_of, its_account, object_size, session_at};
ghost use Rattle.gq_slots.specs.Slots.{Frame, Slots, content_at, world_seen};
ghost use Rattle.gq_slots.specs.Session_calls.{accepting, asking, ending, opening, upgrading};
ghost use Rattle.gq_statements.specs.Systems.{AreLawful, IsOf};

/// If `sessions::ask` is refused, since its client has fewer bytes or fewer capabilities that are not used than it would give, this says why. The machine's
/// world with the session and the request to open it is not paid for.
pub fn refused_opens()
    ensures bytes { (system : System) (f : Frame) (s : Slots) (q : world.Session) → AreLawful s → IsOf system f s → q.client < length s.own
        → (q.client ≡ q.server → ⊥) → available (its_account s.trades.trading q.client) < q.donation.ram
        → paid system (opening (world_seen f s) q) ≡ false }
    ensures caps { (system : System) (f : Frame) (s : Slots) (q : world.Session) → AreLawful s → IsOf system f s → q.client < length s.own
        → (q.client ≡ q.server → ⊥) → (s.trades.trading.ledger.price ≡ 0 → q.donation.caps ≡ 0)
        → available_caps (its_account s.trades.trading q.client) < q.donation.caps → paid system (opening (world_seen f s) q) ≡ false }
{}

/// Where `sessions::upgrade` is refused, the machine's world with what would be given and the request to upgrade is not paid for.
pub fn refused_upgrades()
    ensures bytes { (system : System) (f : Frame) (s : Slots) (k : ℕ) (n : Amount) → AreLawful s → IsOf system f s
        → IsTaken s.trades.trading.sessions k → available (its_account s.trades.trading (client_of s.trades.trading k)) < n.ram
        → paid system (upgrading (world_seen f s) k n) ≡ false }
    ensures caps { (system : System) (f : Frame) (s : Slots) (k : ℕ) (n : Amount) → AreLawful s → IsOf system f s
        → IsTaken s.trades.trading.sessions k → (s.trades.trading.ledger.price ≡ 0 → n.caps ≡ 0)
        → available_caps (its_account s.trades.trading (client_of s.trades.trading k)) < n.caps → paid system (upgrading (world_seen f s) k n) ≡ false }
{}

/// Where `sessions::accept` is refused, since the server can't pay for the object that its oldest request would make, the machine's world with the object is
/// not paid for, whatever requests are left. Of a session whose request to open waits there is no object yet.
pub fn refused_beginnings()
    ensures bytes { (system : System) (f : Frame) (s : Slots) (x : ℕ) (r : Request) (others : List Request) (left : List world.Request)
        → AreLawful s → IsOf system f s → oldest_to x s.trades.trading.requests ≡ Some (r, others)
        → (r.ask ≡ ask.Open → (session_at s.trades.trading r.session).object ≡ content.Empty) → LacksBytes r.ask s.trades.trading r.session
        → paid system (accepting (world_seen f s) r.session r.ask (object_size s.trades.trading r.session) left) ≡ false }
    ensures caps { (system : System) (f : Frame) (s : Slots) (x : ℕ) (r : Request) (others : List Request) (left : List world.Request)
        → AreLawful s → IsOf system f s → oldest_to x s.trades.trading.requests ≡ Some (r, others)
        → (r.ask ≡ ask.Open → (session_at s.trades.trading r.session).object ≡ content.Empty) → LacksCaps r.ask s.trades.trading r.session
        → paid system (accepting (world_seen f s) r.session r.ask (object_size s.trades.trading r.session) left) ≡ false }
{}

/// Where `sessions::closed` is refused, since the server could not pay back what was given for a session even without the session's object, the machine's
/// world without the session is not paid for. The slots of the session are empty, and its object is no pool.
pub fn refused_endings()
    ensures bytes { (system : System) (f : Frame) (s : Slots) (k : ℕ) → AreLawful s → IsOf system f s → IsTaken s.trades.trading.sessions k
        → ((i : ℕ) → i < length (session_at s.trades.trading k).slots → content_at s (InSession k i) ≡ content.Empty)
        → ((p : Pool) → (session_at s.trades.trading k).object ≡ content.Pool p → ⊥)
        → bytes_then s.trades.trading k < (session_at s.trades.trading k).donation.ram → paid system (ending (world_seen f s) k) ≡ false }
    ensures caps { (system : System) (f : Frame) (s : Slots) (k : ℕ) → AreLawful s → IsOf system f s → IsTaken s.trades.trading.sessions k
        → ((i : ℕ) → i < length (session_at s.trades.trading k).slots → content_at s (InSession k i) ≡ content.Empty)
        → caps_then s.trades.trading k < (session_at s.trades.trading k).donation.caps → paid system (ending (world_seen f s) k) ≡ false }
{}

/// A slot that is written at the same price, as a mark is, and a request that is added change nothing of what is paid for. A slot that is there is written
/// before a request or behind it.
pub fn marks()
    ensures marked { (system : System) (w : world.World) (p : world.SlotId) (old new : world.Slot) → world.slot_at w p ≡ Some old
        → ((r : Resource) → slot_price r new ≡ slot_price r old) → paid system (world.with_slot w p new) ≡ paid system w }
    ensures asked { (system : System) (w : world.World) (k : ℕ) (a : world.Ask) → paid system (asking w k a) ≡ paid system w }
    ensures opening { (w : world.World) (q : world.Session) (p : world.SlotId) (old slot : world.Slot) → world.slot_at w p ≡ Some old
        → world.with_slot (opening w q) p slot ≡ opening (world.with_slot w p slot) q }
    ensures upgrading { (w : world.World) (k : ℕ) (n : Amount) (p : world.SlotId) (old slot : world.Slot) → world.slot_at w p ≡ Some old
        → world.with_slot (upgrading w k n) p slot ≡ upgrading (world.with_slot w p slot) k n }
    ensures ending { (w : world.World) (k : ℕ) (p : world.SlotId) (old slot : world.Slot) → world.slot_at w p ≡ Some old
        → world.with_slot (ending w k) p slot ≡ ending (world.with_slot w p slot) k }
    ensures asking { (w : world.World) (p : world.SlotId) (slot : world.Slot) (k : ℕ) (a : world.Ask)
        → world.with_slot (asking w k a) p slot ≡ asking (world.with_slot w p slot) k a }
{}
