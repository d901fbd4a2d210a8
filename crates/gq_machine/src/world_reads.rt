// What is read of the leaves and sessions of a machine between two steps.
ghost use Rattle.std.specs.Prelude.{◌≡◌, ◌<◌, ◌≤◌, ◌∷◌, [], Some, None, option_map, drop, length, slice_get, slice_index, IfSome, IfNone, MatchOption};
ghost use Rattle.gq_heap.specs.Classes.{index_of};
ghost use Rattle.gq_model.specs.machine.Scenario.{components};
ghost use Rattle.gq_model.specs.machine.Step.{oldest, section_asked};
ghost use Rattle.gq_model.specs.machine.World as world;
ghost use Rattle.gq_store.specs.Store.{Store};
ghost use Rattle.gq_contents.specs.Contents.{seen};
ghost use Rattle.gq_trade.specs.Numbers.{IsTaken};
ghost use Rattle.gq_trade.specs.Seen_sessions.{slot_id_seen};
ghost use Rattle.gq_trade.specs.Seen_requests.{ask_seen};
ghost use Rattle.gq_trade.specs.Trading.{session_at};
ghost use Rattle.gq_statements.specs.Slot_statements.{current_seen};
ghost use Rattle.gq_machine.specs.Readers.{HasSlotId, IsReportedOf, asked_in, holding_of, request_of};

use crate::machine::Machine;
use gq_contents::Content;
use gq_model::program::Form;
use gq_model::section::Section;
use gq_scenario::scenario::LeafNo;
use gq_statements::Current;
use gq_statements::paid_laws::lawful;
use gq_statements::serving_requests::section_asked;
use gq_tariff::{Amount, Class};
use gq_trade::{Ask, Request, Session, SlotId, Trades};

/// A request: its session, and the section that it starts.
#[derive(Clone, Copy, Debug, PartialEq, Eq)]
pub struct Asked {
    pub session: usize,
    pub section: Section,
}

/// A session: which leaf asked for it, which one serves it, and as which service, by the number of its interface. Its level, what was given for it, and whether
/// its request to open was accepted.
#[derive(Clone, Copy, Debug, PartialEq, Eq)]
pub struct SessionState {
    pub client: usize,
    pub server: usize,
    pub service: usize,
    pub level: u8,
    pub donation: Amount,
    pub accepted: bool,
}

/// What a slot holds, without its bytes.
#[derive(Clone, Copy, Debug, PartialEq, Eq)]
pub enum Holding {
    /// Nothing.
    Nothing,
    /// Memory of this form, of so many bytes.
    Bytes(Form, u32),
    /// A pool: the bytes of an entry, and how many entries there are.
    Pool(u32, u32),
    /// A session of this number, which is open or of which a reply is awaited.
    Session(usize),
}

// A request that waits, with the section that it starts.
fn asked_of(trades: &Trades, request: Request) -> Asked
    requires there { IsTaken trades.now.trading.sessions request.session }
    requires level { (session_at trades.now.trading request.session).level ≤ 3 }
    ensures session { result.session ≡ request.session }
    ensures section { result.section ≡ section_asked (ask_seen request.ask) (session_at trades.now.trading request.session).level }
{
    let level = trades.level(request.session);
    Asked {
        session: request.session,
        section: section_asked(request.ask, level),
    }
}

// What is reported of a session.
fn state_of(session: &Session) -> SessionState
    ensures { result ≡ record {
      client = session.now.client;
      server = session.now.server;
      service = session.now.service;
      level = session.now.level;
      donation = session.now.donation;
      accepted = session.now.accepted;
    } }
{
    SessionState {
        client: session.client,
        server: session.server,
        service: session.service,
        level: session.level,
        donation: session.donation,
        accepted: session.accepted,
    }
}

// What a content is, without its bytes.
fn holding_of(content: Content) -> Holding
    ensures { (st : Store) → result ≡ holding_of (seen st content) }
{
    match content {
        Content::Empty => Holding::Nothing,
        Content::Block(_, size) => Holding::Bytes(Form::Block, size),
        Content::Slice(_, size) => Holding::Bytes(Form::Slice, size),
        Content::Space(_, size) => Holding::Bytes(Form::Space, size),
        Content::Pool(pool) => Holding::Pool(pool.size(), pool.count()),
        Content::Link(session) | Content::Waiting(session) => Holding::Session(session as usize),
    }
}

impl Machine {
    /// The current session of a leaf and the section that it does for it: none in `main` or in the section for a signal.
    pub fn current(&self, leaf: LeafNo) -> Option<Current>
        requires { leaf < length (components self.now.scenario) }
        ensures { IfSome (slice_get self.now.world.leaves leaf) (λ l. current_seen result ≡ l.current) }
    {
        self.state.leaves[leaf.index()].current()
    }

    /// The number of the signal in whose section a leaf is, if it is in one.
    pub fn reacting(&self, leaf: LeafNo) -> Option<u8>
        requires { leaf < length (components self.now.scenario) }
        ensures { IfSome (slice_get self.now.world.leaves leaf) (λ l. result ≡ l.reacting) }
    {
        self.state.leaves[leaf.index()].reacting()
    }

    /// The top operand of a leaf, where there is one.
    pub fn top(&self, leaf: LeafNo) -> Option<u32>
        requires { leaf < length (components self.now.scenario) }
        ensures { IfSome (slice_get self.now.world.leaves leaf) (λ l. MatchOption result (l.operands ≡ []) (λ a. l.operands ≡ a ∷ drop 1 l.operands)) }
    {
        self.state.leaves[leaf.index()].top()
    }

    /// The oldest request to a leaf, if one waits for it.
    pub fn oldest(&self, leaf: LeafNo) -> Option<Asked>
        ensures { result ≡ option_map (λ p. asked_in self.now.world p.0) (oldest self.now.world leaf self.now.world.requests) }
    {
        lawful(&self.state.slots);
        let trades = self.state.slots.trades();
        match trades.waiting(leaf.index()) {
            Some(request) => Some(asked_of(trades, request)),
            None => None,
        }
    }

    /// The request of a session, if one of it waits.
    pub fn request_of(&self, session: usize) -> Option<Asked>
        ensures { result ≡ option_map (asked_in self.now.world) (request_of session self.now.world.requests) }
    {
        lawful(&self.state.slots);
        let trades = self.state.slots.trades();
        match trades.request_of(session) {
            Some(request) => Some(asked_of(trades, request)),
            None => None,
        }
    }

    /// How many numbers of sessions have been used: each that is taken is below.
    pub fn session_count(&self) -> usize
        ensures count { result ≡ length self.now.world.sessions }
        ensures few { result ≤ 16449 }
    {
        self.state.slots.trades().session_count()
    }

    /// The session of a number, if there is one.
    pub fn session(&self, session: usize) -> Option<SessionState>
        ensures some { IfSome result (λ reported. IsReportedOf self.now session reported) }
        ensures none { IfNone result (world.session_at self.now.world session ≡ None) }
    {
        lawful(&self.state.slots);
        match self.state.slots.trades().find_session(session) {
            Some(found) => Some(state_of(found)),
            None => None,
        }
    }

    /// What a slot holds, of a leaf or of a session that is there.
    pub fn holding(&self, slot_id: SlotId) -> Holding
        requires { HasSlotId self.now slot_id }
        ensures { option_map holding_of (world.slot_at self.now.world (slot_id_seen slot_id)) ≡ Some result }
    {
        lawful(&self.state.slots);
        holding_of(self.state.slots.content(slot_id))
    }

    /// The greatest number of places of a class that a leaf has had in use at one time.
    pub fn peak(&self, leaf: LeafNo, class: Class) -> u32
        requires { leaf < length (components self.now.scenario) }
        ensures { IfSome (slice_get self.now.world.leaves leaf) (λ l. result ≡ slice_index l.peaks (index_of class)) }
    {
        lawful(&self.state.slots);
        self.state.slots.peak(leaf.index(), class)
    }
}
