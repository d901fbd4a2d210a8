// Sessions, requests and donations over the accounts of a scenario.
ghost use Rattle.std.specs.Prelude.{◌≡◌, ℕ, ◌+◌, ◌<◌, ◌≤◌, ◌%◌, ◌↔◌, length, get_or, option_map, Some, None, IfOk, OnOk, OnErr, IsErrOf, IfSome};
ghost use Rattle.std.specs.Prelude.{IfNone, IsTrue, false, is_some};
ghost use Rattle.gq_tariff.specs.Prices.{up};
ghost use Rattle.gq_ram.specs.Account_table.{account_at, available, available_caps, has_members, IsOpen};
ghost use Rattle.gq_ram.specs.Account_tree.{number};
ghost use Rattle.gq_contents.specs.declared.content.Content.TheVariants as content;
ghost use Rattle.gq_contents.specs.Contents.{IsSlice, size_of};
ghost use Rattle.gq_contents.specs.Paid.{IsPaidWhereLeft};
ghost use Rattle.gq_trade.specs.Numbers.{free_number, IsTaken};
ghost use Rattle.gq_trade.specs.Rest.{IsClosed};
ghost use Rattle.gq_trade.specs.declared.requests.Ask.TheVariants as ask;
ghost use Rattle.gq_trade.specs.Queues.{IsOldest, oldest_to, request_of};
ghost use Rattle.gq_trade.specs.Trading.{Accepts, AreOfOthers, Begins, Closes, Frees, IsOfOldest, IsTrading, LacksBytes, LacksCaps, Leaves, Makes, Opens};
ghost use Rattle.gq_trade.specs.Trading.{account_no, asked, bytes_then, caps_then, client_of, fresh, its_account, node_of, opened, parted, raised, server_of};
ghost use Rattle.gq_trade.specs.Trading.{session_at, store_of, upgraded, with_ask, with_session, with_slot};
ghost use Rattle.gq_ram.specs.Giving.{CanGive, IsAfforded};
ghost use Rattle.gq_trade.specs.declared.trade_node.Stage.TheVariants as Stage;
ghost use Rattle.gq_trade.specs.Leaf_ends.{CanStart, Ends, HasNoSessions, follower, staged, started};
ghost use Rattle.gq_trade.specs.Trades_plan.{IsFirst, IsPlan};
ghost use Rattle.gq_trade.specs.Balances.{node_at, quota, use_of};
ghost use Rattle.gq_trade.specs.Waiting.{IsIdle};
ghost use Rattle.gq_trade.specs.Trades.{AreParties, CanAskServer, HasAccount, IsLive, IsTrades, with_trading};

use crate::numbered_values::Numbered;
use crate::requests::{Ask, Request, Requests};
use crate::session::{Session, SlotId};
use crate::trade_node::{NodeState, Stage, follower, handed_to};
use gq_contents::Content;
use gq_ram::{AccountFault, AccountNo, AccountTree, Accounts, afford};
use gq_store::{ByteStore, ChunkNo, GrowFault};
use gq_tariff::{Amount, price_slice};
use std::alloc::{AllocError, Global};
use std::marker::Model;

/// The memory of all accounts of a scenario, the sessions between its leaves, the requests that wait for their servers, and what each node has been
/// handed. The quota of each node is what it was handed and was given for sessions, less what it has lent and handed on. No call but `new` takes host
/// memory.
#[derive(Drop)]
pub struct Trades {
    accounts: Accounts,
    tree: AccountTree,
    // The node of each leaf.
    leaves: Vec<usize>,
    // The bytes of a session's object, for each service.
    objects: Vec<u32>,
    sessions: Numbered<Session>,
    requests: Requests,
    nodes: Vec<NodeState>,
}

impl Model for Trades {
    ghost use Rattle.gq_trade.specs.Trades.{Trades};
    ghost use Rattle.gq_trade.specs.internal.Trades_fields.{Holds, trades_of};

    ghost Value = { Trades };

    ghost view = { λ t. trades_of t.accounts t.tree t.leaves.items t.objects.items t.sessions t.requests t.nodes.items };

    ghost invariant = { λ t. Holds (trades_of t.accounts t.tree t.leaves.items t.objects.items t.sessions t.requests t.nodes.items) };
}

/// The nodes of a scenario in preorder, the root first.
///
/// - `parents`: the node above each (that of the root is not looked at).
/// - `nodes`: the quantum of each, and with which node it starts after.
/// - `leaves`: which node each leaf is.
/// - `objects`: how many bytes the object of a session has, for each service.
#[derive(Drop)]
pub struct Plan {
    pub parents: Vec<usize>,
    pub nodes: Vec<NodeState>,
    pub leaves: Vec<usize>,
    pub objects: Vec<u32>,
}

impl Trades {
    /// Accounts for the nodes of a plan, with `total` bytes and, where they are counted, `caps` capabilities, which are handed down from the root. Each node
    /// that is live has its quantum less what it has handed on. There is room for so many sessions. `Err` where the host refuses memory.
    pub fn new(
        alloc: Global,
        total: u64,
        caps: Option<u64>,
        plan: Plan,
        room: u32,
    ) -> Result<Trades, AllocError>
        requires total { (4096 ≤ total) × (total ≤ 67108864) }
        requires pages { total % 4096 ≡ 0 }
        requires caps { IfSome caps (λ n. (1 ≤ n) × (n ≤ 65536)) }
        requires plan { IsPlan total caps plan.parents.items plan.nodes.items plan.leaves.items plan.objects.items }
        ensures { IfOk result (λ t. IsFirst total caps plan.parents.items plan.nodes.items plan.leaves.items plan.objects.items room t) }
    {
        let handed = handed_to(alloc, plan.nodes.as_slice())?;
        let mut accounts = Accounts::new(alloc, total, caps)?;
        let tree = AccountTree::open(alloc, &mut accounts, plan.parents)?;
        tree.hand_out(&mut accounts, handed.as_slice());
        let sessions = Numbered::new(alloc, room)?;
        Ok(Trades {
            accounts,
            tree,
            leaves: plan.leaves,
            objects: plan.objects,
            sessions,
            requests: Requests::new(),
            nodes: plan.nodes,
        })
    }

    /// Asks for a session: it takes the lowest free number, the donation goes from its client to its server, through every init on the way, and its
    /// request to open is the last.
    ///
    /// Refused as `Exceeded` where the client has fewer bytes that are not used, else as `CapsExceeded` where it has fewer capabilities; then
    /// nothing changes. Where capabilities are not counted, none can be given. Client and server are live, and no request of the client waits.
    pub fn ask(
        &mut self,
        client: usize,
        slot_id: SlotId,
        server: usize,
        service: usize,
        donation: Amount,
    ) -> Result<usize, AccountFault>
        requires can { CanAskServer self.old client server }
        requires service { service < length self.old.trading.objects }
        requires counted { self.old.trading.ledger.price ≡ 0 → donation.caps ≡ 0 }
        ensures number { IfOk result (λ k. k ≡ free_number self.old.trading.sessions) }
        ensures asked { OnOk result (self.new ≡ with_trading self.old (asked self.old.trading (fresh client slot_id server service donation))) }
        ensures afforded { IsAfforded result (available (its_account self.old.trading client)) (available_caps (its_account self.old.trading client)) donation }
        ensures unchanged { OnErr result (self.new ≡ self.old) }
    {
        self.accounts.laws();
        let (from, to) = self.givers(client, server);
        self.tree.donate(&mut self.accounts, from, to, donation)?;
        let number = self.sessions.add(Session {
            client,
            slot_id,
            server,
            service,
            level: 0,
            donation,
            accepted: false,
            object: Content::Empty,
            slots: [Content::Empty; 8],
        });
        self.requests.push(Request {
            session: number,
            server,
            ask: Ask::Open,
        });
        Ok(number)
    }

    /// Asks for the next level of a session: what is given for it goes from its client to its server, as in `ask`, and its request to upgrade is the
    /// last. Refused as `ask` is.
    pub fn upgrade(&mut self, session: usize, donation: Amount) -> Result<(), AccountFault>
        requires there { IsTaken self.old.trading.sessions session }
        requires counted { self.old.trading.ledger.price ≡ 0 → donation.caps ≡ 0 }
        requires idle { IsIdle self.old.trading (client_of self.old.trading session) }
        ensures upgraded { OnOk result (self.new ≡ with_trading self.old (upgraded self.old.trading session donation)) }
        ensures afforded { IsAfforded result (available (its_account self.old.trading (client_of self.old.trading session)))
            (available_caps (its_account self.old.trading (client_of self.old.trading session))) donation }
        ensures unchanged { OnErr result (self.new ≡ self.old) }
    {
        self.accounts.laws();
        let old = self.between(session);
        let (from, to) = self.givers(old.client, old.server);
        self.tree.donate(&mut self.accounts, from, to, donation)?;
        let raised = self.sessions.at_mut(session);
        raised.donation.ram += donation.ram;
        raised.donation.caps += donation.caps;
        self.requests.push(Request {
            session,
            server: old.server,
            ask: Ask::Upgrade,
        });
        Ok(())
    }

    /// Asks for the reply of a session's server to a number: the request is the last.
    pub fn ask_call(&mut self, session: usize, value: u32)
        requires there { IsTaken self.old.trading.sessions session }
        requires idle { IsIdle self.old.trading (client_of self.old.trading session) }
        ensures { self.new ≡ with_trading self.old (with_ask self.old.trading session (ask.Call value)) }
    {
        self.push(session, Ask::Call(value));
    }

    /// Asks for the end of a session: the request is the last.
    pub fn ask_close(&mut self, session: usize)
        requires there { IsTaken self.old.trading.sessions session }
        requires idle { IsIdle self.old.trading (client_of self.old.trading session) }
        ensures { self.new ≡ with_trading self.old (with_ask self.old.trading session ask.Close) }
    {
        self.push(session, Ask::Close);
    }

    // A request of a session, behind all others.
    fn push(&mut self, session: usize, ask: Ask)
        requires there { IsTaken self.old.trading.sessions session }
        requires idle { IsIdle self.old.trading (client_of self.old.trading session) }
        ensures { self.new ≡ with_trading self.old (with_ask self.old.trading session ask) }
    {
        let server = self.sessions.get(session).server;
        self.requests.push(Request {
            session,
            server,
            ask,
        });
    }

    /// The oldest request to a server, of a session to it. It stays.
    #[inline(always)]
    pub fn waiting(&self, server: usize) -> Option<Request>
        ensures some { IfSome result (λ r. IsOldest server self.now.trading.requests r) }
        ensures its { IfSome result (λ r. IsTaken self.now.trading.sessions r.session × (server_of self.now.trading r.session ≡ server)) }
        ensures none { IfNone result (oldest_to server self.now.trading.requests ≡ None) }
    {
        self.requests.oldest(server)
    }

    /// Takes the oldest request to a server, if there is one. A request to open makes the session's object, a slice which its server pays for and which
    /// reads 0; one to upgrade raises the level.
    ///
    /// Refused as `Exceeded` where the object's bytes can't be paid, else as `CapsExceeded` where the server has no capability left; then nothing
    /// changes.
    pub fn accept(&mut self, server: usize) -> Result<Option<Request>, GrowFault>
        requires server { IsLive self.old server }
        requires level { IfSome (oldest_to server self.old.trading.requests)
            (λ p. p.0.ask ≡ ask.Upgrade → (session_at self.old.trading p.0.session).level < 3) }
        ensures none { IfOk result (λ o. IfNone o ((oldest_to server self.old.trading.requests ≡ None) × (self.new ≡ self.old))) }
        ensures some { IfOk result (λ o. IfSome o (λ r. Accepts self.old.trading self.new.trading server r)) }
        ensures nodes { self.new.nodes ≡ self.old.nodes }
        ensures err { OnErr result (self.new ≡ self.old) }
        ensures exceeded { IsErrOf result GrowFault.Exceeded
            ↔ IsOfOldest (oldest_to server self.old.trading.requests) (λ r. LacksBytes r.ask self.old.trading r.session) }
        ensures caps_exceeded { IsErrOf result GrowFault.CapsExceeded
            ↔ IsOfOldest (oldest_to server self.old.trading.requests) (λ r. LacksCaps r.ask self.old.trading r.session) }
    {
        self.laws();
        let Some(request) = self.waiting(server) else {
            return Ok(None);
        };
        self.begin(request)?;
        self.requests.take_oldest(server);
        Ok(Some(request))
    }

    // What a request does to its session as it is accepted.
    fn begin(&mut self, request: Request) -> Result<(), GrowFault>
        requires there { IsTaken self.old.trading.sessions request.session }
        requires level { request.ask ≡ ask.Upgrade → (session_at self.old.trading request.session).level < 3 }
        ensures ok { OnOk result (Begins request.ask self.old.trading self.new.trading request.session) }
        ensures nodes { self.new.nodes ≡ self.old.nodes }
        ensures err { OnErr result (self.new ≡ self.old) }
        ensures exceeded { IsErrOf result GrowFault.Exceeded ↔ LacksBytes request.ask self.old.trading request.session }
        ensures caps_exceeded { IsErrOf result GrowFault.CapsExceeded ↔ LacksCaps request.ask self.old.trading request.session }
    {
        match request.ask {
            Ask::Open => self.open(request.session),
            Ask::Upgrade => {
                self.raise(request.session);
                Ok(())
            }
            Ask::Close | Ask::Call(_) => Ok(()),
        }
    }

    // The session is accepted, with its object.
    fn open(&mut self, session: usize) -> Result<(), GrowFault>
        requires { IsTaken self.old.trading.sessions session }
        ensures ok { OnOk result (Opens self.old.trading self.new.trading session) }
        ensures nodes { self.new.nodes ≡ self.old.nodes }
        ensures err { OnErr result (self.new ≡ self.old) }
        ensures exceeded { IsErrOf result GrowFault.Exceeded ↔ LacksBytes ask.Open self.old.trading session }
        ensures caps_exceeded { IsErrOf result GrowFault.CapsExceeded ↔ LacksCaps ask.Open self.old.trading session }
    {
        let old = self.between(session);
        let object = self.make(old.server, old.service)?;
        self.put_object(session, object);
        Ok(())
    }

    // An object of a service, a slice that a leaf pays for.
    fn make(&mut self, leaf: usize, service: usize) -> Result<Content, GrowFault>
        requires leaf { IsLive self.old leaf }
        requires service { service < length self.old.trading.objects }
        ensures ok { IfOk result (λ t. Makes self.old.trading self.new.trading leaf (get_or self.old.trading.objects service 0) t) }
        ensures nodes { self.new.nodes ≡ self.old.nodes }
        ensures err { OnErr result (self.new ≡ self.old) }
        ensures refused { IsPaidWhereLeft (store_of self.old.trading leaf) (up (get_or self.old.trading.objects service 0 + 32)) result }
    {
        let account = self.account_of(leaf);
        let size = self.objects[service];
        Content::make_slice(&mut self.accounts, account, size)
    }

    // A session is accepted, with this object.
    fn put_object(&mut self, session: usize, object: Content)
        requires { IsTaken self.old.trading.sessions session }
        ensures { self.new ≡ with_trading self.old (with_session self.old.trading session (opened (session_at self.old.trading session) object)) }
    {
        let accepted = self.sessions.at_mut(session);
        accepted.accepted = true;
        accepted.object = object;
    }

    // The level of a session is one higher.
    fn raise(&mut self, session: usize)
        requires there { IsTaken self.old.trading.sessions session }
        requires level { (session_at self.old.trading session).level < 3 }
        ensures { self.new ≡ with_trading self.old (with_session self.old.trading session (raised (session_at self.old.trading session))) }
    {
        let raised = self.sessions.at_mut(session);
        raised.level += 1;
    }

    /// Ends a session at the reply to its close: its object is freed, what was given for it goes back to its client, through every init on the way, and
    /// its number is free. Its slots are empty, no request of it waits, and its object is its server's.
    ///
    /// Refused as `Exceeded` where its server could not pay the bytes back even then, else as `CapsExceeded` where it could not pay the
    /// capabilities back; then nothing changes.
    pub fn closed(&mut self, session: usize) -> Result<(), AccountFault>
        requires there { IsTaken self.old.trading.sessions session }
        requires object { IsSlice (store_of self.old.trading (server_of self.old.trading session)) (session_at self.old.trading session).object }
        requires empty { (i : ℕ) → i < 8 → get_or (session_at self.old.trading session).slots i content.Empty ≡ content.Empty }
        requires none_waits { AreOfOthers session self.old.trading.requests }
        ensures ok { OnOk result (Closes self.old.trading self.new.trading session) }
        ensures nodes { self.new.nodes ≡ self.old.nodes }
        ensures err { OnErr result (self.new ≡ self.old) }
        ensures afforded { IsAfforded result (bytes_then self.old.trading session) (caps_then self.old.trading session)
            (session_at self.old.trading session).donation }
    {
        let old = self.between(session);
        self.can_return(&old)?;
        self.free(old.server, old.object);
        self.part(session);
        Ok(())
    }

    // Whether the server of a session can give back what was given for it, once the session's object is freed.
    fn can_return(&self, session: &Session) -> Result<(), AccountFault>
        requires server { IsLive self.now session.now.server }
        requires object { size_of session.now.object ≤ 67108864 }
        ensures { IsAfforded result (available (its_account self.now.trading session.now.server) + up (size_of session.now.object + 32))
            (available_caps (its_account self.now.trading session.now.server) + 1) session.now.donation }
    {
        let account = self.account_of(session.server);
        let accounts = &self.accounts;
        accounts.laws();
        let avail = accounts.avail(account);
        let then = Amount {
            ram: avail.ram + price_slice(u64::from(session.object.size())),
            caps: avail.caps + 1,
        };
        afford(then, session.donation)
    }

    // Makes a slice free that a leaf has paid for.
    fn free(&mut self, leaf: usize, slice: Content)
        requires leaf { IsLive self.old leaf }
        requires slice { IsSlice (store_of self.old.trading leaf) slice }
        ensures frees { Frees self.old.trading self.new.trading leaf slice }
        ensures nodes { self.new.nodes ≡ self.old.nodes }
    {
        let account = self.account_of(leaf);
        slice.free_slice(&mut self.accounts, account);
    }

    // What was given for a session goes back to its client, which its server has, and the number is free.
    fn part(&mut self, session: usize)
        requires there { IsTaken self.old.trading.sessions session }
        requires none_waits { AreOfOthers session self.old.trading.requests }
        requires enough { (session_at self.old.trading session).donation.ram
            ≤ available (its_account self.old.trading (server_of self.old.trading session)) }
        requires enough_caps { (session_at self.old.trading session).donation.caps
            ≤ available_caps (its_account self.old.trading (server_of self.old.trading session)) }
        ensures { self.new ≡ with_trading self.old (parted self.old.trading session) }
    {
        let old = self.between(session);
        let (from, to) = self.givers(old.server, old.client);
        self.tree.give(&mut self.accounts, from, to, old.donation);
        self.sessions.remove(session);
    }

    /// The session of a number that is taken.
    #[inline(always)]
    pub fn session(&self, session: usize) -> Session
        requires { IsTaken self.now.trading.sessions session }
        ensures { result ≡ session_at self.now.trading session }
    {
        self.sessions.get(session)
    }

    /// How many numbers of sessions have been used: each that is taken is below.
    pub fn session_count(&self) -> usize
        ensures count { result ≡ length self.now.trading.sessions }
        ensures few { result ≤ self.now.trading.room }
    {
        self.sessions.laws();
        self.sessions.count()
    }

    /// The session of a number, if there is one.
    pub fn find_session(&self, session: usize) -> Option<&Session>
        ensures { option_map (λ s. s.now) result ≡ get_or self.now.trading.sessions session None }
    {
        self.sessions.find(session)
    }

    /// The request of a session, if one of it waits for its server.
    pub fn request_of(&self, session: usize) -> Option<Request>
        ensures { result ≡ request_of session self.now.trading.requests }
    {
        self.requests.of_session(session)
    }

    /// The requests that wait, the oldest first.
    pub fn requests(&self) -> &[Request]
        ensures { result.now ≡ self.now.trading.requests }
    {
        self.requests.as_slice()
    }

    // The session of a number that is taken: its client and server are live, and two leaves.
    #[inline(always)]
    fn between(&self, session: usize) -> Session
        requires { IsTaken self.now.trading.sessions session }
        ensures is { result ≡ session_at self.now.trading session }
        ensures parties { AreParties self.now result }
    {
        self.sessions.get(session)
    }

    // The nodes of two live leaves, between which quota can go.
    #[inline(always)]
    fn givers(&self, from: usize, to: usize) -> (usize, usize)
        requires from { IsLive self.now from }
        requires to { IsLive self.now to }
        requires apart { from ≡ to → ⊥ }
        ensures from { result.0 ≡ node_of self.now.trading from }
        ensures to { result.1 ≡ node_of self.now.trading to }
        ensures can { CanGive self.now.trading.tree self.now.trading.ledger.accounts result.0 result.1 }
    {
        (self.leaves[from], self.leaves[to])
    }

    /// What a slot of a session holds.
    #[inline(always)]
    pub fn slot(&self, session: usize, slot: usize) -> Content
        requires there { IsTaken self.now.trading.sessions session }
        requires slot { slot < 8 }
        ensures { result ≡ get_or (session_at self.now.trading session).slots slot content.Empty }
    {
        self.sessions.at(session).slots[slot]
    }

    /// Puts something into an empty slot of a session.
    pub fn put(&mut self, session: usize, slot: usize, contents: Content)
        requires there { IsTaken self.old.trading.sessions session }
        requires slot { slot < 8 }
        requires empty { get_or (session_at self.old.trading session).slots slot content.Empty ≡ content.Empty }
        ensures { self.new ≡ with_trading self.old
            (with_session self.old.trading session (with_slot (session_at self.old.trading session) slot contents)) }
    {
        self.set_slot(session, slot, contents);
    }

    /// Makes a slot of a session empty. What it held is not freed.
    pub fn clear_slot(&mut self, session: usize, slot: usize)
        requires there { IsTaken self.old.trading.sessions session }
        requires slot { slot < 8 }
        ensures { self.new ≡ with_trading self.old
            (with_session self.old.trading session (with_slot (session_at self.old.trading session) slot content.Empty)) }
    {
        self.set_slot(session, slot, Content::Empty);
    }

    // Another content in a slot of a session.
    fn set_slot(&mut self, session: usize, slot: usize, contents: Content)
        requires there { IsTaken self.old.trading.sessions session }
        requires slot { slot < 8 }
        ensures { self.new ≡ with_trading self.old
            (with_session self.old.trading session (with_slot (session_at self.old.trading session) slot contents)) }
    {
        let changed = self.sessions.at_mut(session);
        changed.slots[slot] = contents;
    }

    /// Ends a leaf from which and to which there is no session: its account is closed, with all that it has in memory, and its quota of both kinds goes to
    /// its init. A node that starts after it has its quantum from now on.
    pub fn end(&mut self, leaf: usize)
        requires leaf { IsLive self.old leaf }
        requires alone { HasNoSessions self.old.trading leaf }
        ensures { Ends self.old self.new leaf }
    {
        let node = self.leave(leaf);
        if let Some(next) = follower(self.nodes.as_slice(), node) {
            self.start(next);
        }
    }

    // Closes the account of a leaf, which gives its quantum back. Reports its node.
    fn leave(&mut self, leaf: usize) -> usize
        requires leaf { IsLive self.old leaf }
        requires alone { HasNoSessions self.old.trading leaf }
        ensures node { result ≡ node_of self.old.trading leaf }
        ensures leaves { Leaves self.old.trading self.new.trading leaf }
        ensures nodes { self.new.nodes ≡ staged self.old.nodes (node_of self.old.trading leaf) Stage.Ended }
        ensures follower { IfSome (follower (node_of self.old.trading leaf) self.new.nodes) (λ i. CanStart self.new i) }
    {
        self.accounts.laws();
        let node = self.leaves[leaf];
        let account = self.tree.account(node);
        let old = self.nodes[node];
        close(&mut self.accounts, account);
        self.nodes[node] = NodeState {
            stage: Stage::Ended,
            ..old
        };
        node
    }

    // A pending node has its quantum from now on.
    fn start(&mut self, node: usize)
        requires { CanStart self.old node }
        ensures { self.new ≡ started self.old (Some node) }
    {
        let old = self.nodes[node];
        let init = self.tree.parent(node);
        self.tree.give(&mut self.accounts, init, node, old.quantum);
        self.nodes[node] = NodeState {
            stage: Stage::Live,
            ..old
        };
    }

    /// What was given for a session: bytes and capabilities.
    pub fn donation(&self, session: usize) -> Amount
        requires { IsTaken self.now.trading.sessions session }
        ensures { result ≡ (session_at self.now.trading session).donation }
    {
        self.sessions.at(session).donation
    }

    /// How many upgrades of a session were accepted.
    #[inline(always)]
    pub fn level(&self, session: usize) -> u8
        requires { IsTaken self.now.trading.sessions session }
        ensures { result ≡ (session_at self.now.trading session).level }
    {
        self.sessions.at(session).level
    }

    /// Whether a node has its quantum.
    pub fn stage(&self, node: usize) -> Stage
        requires { node < length self.now.nodes }
        ensures { result ≡ (node_at self.now.nodes node).stage }
    {
        self.nodes[node].stage
    }

    /// The quota of a node that has not ended: what it was handed and was given for sessions, less what it has lent and handed on.
    pub fn quota(&self, node: usize) -> Amount
        requires { HasAccount self.now node }
        ensures ram { result.ram ≡ quota (λ n. n.ram) self.now.trading node }
        ensures caps { result.caps ≡ quota (λ n. n.caps) self.now.trading node }
    {
        let account = self.open_account(node);
        self.accounts.quota(account)
    }

    /// What a node that has not ended has in use: what its memory costs. No capabilities where these are not counted.
    pub fn used(&self, node: usize) -> Amount
        requires { HasAccount self.now node }
        ensures ram { result.ram ≡ use_of (λ n. n.ram) self.now.trading node }
        ensures caps { result.caps ≡ use_of (λ n. n.caps) self.now.trading node }
    {
        let account = self.open_account(node);
        self.accounts.used(account)
    }

    /// How many pages of 4096 bytes nobody has in use.
    pub fn free_pages(&self) -> u32
        ensures { result ≡ self.now.trading.ledger.spaces.free }
    {
        self.accounts.free_pages()
    }

    // The account of a node that has not ended, which is open.
    #[inline(always)]
    fn open_account(&self, node: usize) -> AccountNo
        requires { HasAccount self.now node }
        ensures is { result.0 ≡ number self.now.trading.tree node }
        ensures open { IsOpen self.now.trading.ledger.accounts result.0 }
    {
        let _nodes = &self.nodes;
        self.tree.account(node)
    }

    // The account of a live leaf, which is open.
    #[inline(always)]
    fn account_of(&self, leaf: usize) -> AccountNo
        requires { IsLive self.now leaf }
        ensures is { result ≡ account_no self.now.trading leaf }
        ensures open { IsOpen self.now.trading.ledger.accounts result.0 }
    {
        self.open_account(self.leaves[leaf])
    }

    /// The account of a leaf, which is open if the leaf is live.
    #[inline(always)]
    pub fn leaf_account(&self, leaf: usize) -> AccountNo
        requires { leaf < length self.now.trading.leaves }
        ensures { result ≡ account_no self.now.trading leaf }
    {
        self.tree.account(self.leaves[leaf])
    }

    /// What holds in every `Trades`. It does nothing.
    ///
    /// - The stored quota of each node is what it was handed and was given for sessions, less what it has lent and handed on, of bytes and of capabilities.
    /// - Client and server of each session are live, and are two leaves.
    pub fn laws(&self)
        ensures trades { IsTrades self.now }
        ensures trading { IsTrading self.now.trading }
        ensures numbers { length self.now.trading.sessions ≤ self.now.trading.room }
    {
        let _nodes = &self.nodes;
        self.sessions.laws();
    }

    /// All accounts, with what they have in memory.
    pub fn accounts(&self) -> &Accounts
        ensures { result.now ≡ self.now.trading.ledger }
    {
        &self.accounts
    }
}

// Closes an account that is the reference account of no other: its dataspaces are removed, and its quota of both kinds goes to its reference account. What all
// other accounts have in memory stays.
fn close(accounts: &mut Accounts, account: AccountNo)
    requires open { IsOpen accounts.old.accounts account.0 }
    requires alone { has_members accounts.old.accounts account ≡ false }
    requires below { IsTrue (is_some (account_at accounts.old.accounts account.0).reference) }
    ensures { IfSome (account_at accounts.old.accounts account.0).reference (λ init. IsClosed accounts.old accounts.new account init) }
{
    accounts.laws();
    match accounts.close(account) {
        Ok(()) => accounts.laws(),
        Err(_) => unreachable!(),
    }
}

// As a store it is its accounts: what they have in memory is no part of sessions and requests.
impl ByteStore for Trades {
    ghost use Rattle.gq_ram.specs.Account_stores.{store_at};
    ghost use Rattle.gq_trade.specs.Trades.{SameButMemory};

    ghost state = { λ t. store_at t.trading.ledger };

    ghost same_rest = { SameButMemory };

    fn grow(&mut self, account: AccountNo, pages: u32) -> Result<ChunkNo, GrowFault> {
        self.accounts.grow(account, pages)
    }

    fn shrink(&mut self, account: AccountNo, chunk: ChunkNo) {
        self.accounts.shrink(account, chunk);
    }

    fn load(&self, chunk: ChunkNo, offset: u32) -> u8 {
        ByteStore::load(&self.accounts, chunk, offset)
    }

    fn store(&mut self, chunk: ChunkNo, offset: u32, value: u8) {
        ByteStore::store(&mut self.accounts, chunk, offset, value);
    }

    fn load4(&self, chunk: ChunkNo, offset: u32) -> u32 {
        ByteStore::load4(&self.accounts, chunk, offset)
    }

    fn store4(&mut self, chunk: ChunkNo, offset: u32, value: u32) {
        ByteStore::store4(&mut self.accounts, chunk, offset, value);
    }

    fn clear(&mut self, chunk: ChunkNo, offset: u32, size: u32) {
        ByteStore::clear(&mut self.accounts, chunk, offset, size);
    }

    ghost use Rattle.gq_trade.specs.internal.Store_rest.{rest_refl as refl_of, rest_trans as trans_of};

    ghost rest_refl = { refl_of };

    ghost rest_trans = { trans_of };
}
