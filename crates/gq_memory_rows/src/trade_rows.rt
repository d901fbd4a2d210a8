// Sessions between leaves, from the first request to the close, and leaves that start once others have ended.
ghost use Rattle.std.specs.Prelude.{◌≡◌, [], ◌∷◌, IfOk, OnOk, OnErr};
ghost use Rattle.gq_ram.specs.Account_table.{IsOpen};
ghost use Rattle.gq_memory_rows.specs.Markets.{AreParties, AreReady, HasAsked, HasOne, IsLine, IsQuiet, IsTrio, live_node, pending_node, request_of};
ghost use Rattle.gq_trade.specs.Trades.{IsLive};

use crate::used::used;
use gq_heap::Heap;
use gq_ram::{AccountFault, AccountNo};
use gq_store::GrowFault;
use gq_tariff::Amount;
use gq_trade::{NodeState, Plan, SlotId, Stage, Trades};
use std::alloc::{AllocError, Global};

// The leaves of a market.
const SERVER: usize = 0;

const CLIENT: usize = 1;

// A scenario of whose leaves the first serves the second, with the accounts of the two.
#[derive(Drop)]
struct Market {
    trades: Trades,
    server: AccountNo,
    client: AccountNo,
}

// The quotas of both leaves in bytes, what the server uses of its, and the quotas of the inits above the client, the lowest first.
#[derive(Clone, Copy, Debug, PartialEq, Eq)]
struct Bytes {
    server: u64,
    used: u64,
    client: u64,
    inits: [u64; 3],
}

// The same of capabilities.
#[derive(Clone, Copy, Debug, PartialEq, Eq)]
struct Caps {
    server: u64,
    used: u64,
    client: u64,
}

impl Market {
    fn new(trades: Trades) -> Market
        requires ready { AreReady trades }
        requires quiet { IsQuiet trades }
        ensures parties { AreParties result.trades result.server result.client }
        ensures quiet { IsQuiet result.trades }
        ensures price { result.trades.trading.ledger.price ≡ trades.trading.ledger.price }
    {
        let server = trades.leaf_account(SERVER);
        let client = trades.leaf_account(CLIENT);
        Market {
            trades,
            server,
            client,
        }
    }

    // The client asks for a session.
    fn ask(&mut self, donation: Amount) -> Result<usize, AccountFault>
        requires parties { AreParties self.old.trades self.old.server self.old.client }
        requires quiet { IsQuiet self.old.trades }
        requires counted { self.old.trades.trading.ledger.price ≡ 0 → donation.caps ≡ 0 }
        ensures parties { AreParties self.new.trades self.new.server self.new.client }
        ensures asked { OnOk result (HasAsked self.new.trades) }
        ensures quiet { OnErr result (IsQuiet self.new.trades) }
        ensures price { self.new.trades.trading.ledger.price ≡ self.old.trades.trading.ledger.price }
    {
        self.trades
            .ask(CLIENT, SlotId::InLeaf(CLIENT, 0), SERVER, 0, donation)
    }

    // The server takes the request to open.
    fn accept(&mut self) -> Result<(), GrowFault>
        requires parties { AreParties self.old.trades self.old.server self.old.client }
        requires asked { HasAsked self.old.trades }
        ensures parties { AreParties self.new.trades self.new.server self.new.client }
        ensures one { OnOk result (HasOne self.new.trades) }
    {
        let _heap = Heap::new();
        self.trades.accept(SERVER)?;
        Ok(())
    }

    // The client asks for the end of the session, and the server takes the request and replies.
    fn close(&mut self) -> Result<(), AccountFault>
        requires parties { AreParties self.old.trades self.old.server self.old.client }
        requires one { HasOne self.old.trades }
        ensures parties { AreParties self.new.trades self.new.server self.new.client }
    {
        self.trades.ask_close(0);
        if self.trades.accept(SERVER).is_err() {
            return Err(AccountFault::HasMembers);
        }
        self.trades.closed(0)
    }

    fn bytes(&self) -> Bytes
        requires { AreParties self.now.trades self.now.server self.now.client }
    {
        self.trades.laws();
        let accounts = self.trades.accounts();
        Bytes {
            server: accounts.quota(self.server).ram,
            used: accounts.used(self.server).ram,
            client: accounts.quota(self.client).ram,
            inits: quotas_above(&self.trades, self.client),
        }
    }

    fn caps(&self) -> Caps
        requires { AreParties self.now.trades self.now.server self.now.client }
    {
        self.trades.laws();
        let accounts = self.trades.accounts();
        Caps {
            server: accounts.quota(self.server).caps,
            used: accounts.used(self.server).caps,
            client: accounts.quota(self.client).caps,
        }
    }
}

// The quota of the reference account of an account, and so on up to that of the root.
fn quotas_above(trades: &Trades, account: AccountNo) -> [u64; 3]
    requires { IsOpen trades.now.trading.ledger.accounts account.0 }
{
    let accounts = trades.accounts();
    accounts.laws();
    let mut quotas = [0; 3];
    let mut below = account;
    for place in 0..3 {
        match accounts.reference(below) {
            Some(above) => {
                quotas[place] = accounts.quota(above).ram;
                below = above;
            }
            None => return quotas,
        }
    }
    quotas
}

// A node that has its quantum.
pub(crate) fn live(ram: u64, caps: u64) -> NodeState
    ensures { result ≡ live_node ram caps }
{
    NodeState {
        quantum: Amount { ram, caps },
        after: None,
        stage: Stage::Live,
    }
}

// A node that starts once another has ended.
fn pending(ram: u64, after: usize) -> NodeState
    ensures { result ≡ pending_node ram after }
{
    NodeState {
        quantum: Amount { ram, caps: 0 },
        after: Some(after),
        stage: Stage::Pending,
    }
}

// The nodes below these parents, which are leaves of them, and one service, whose object has so many bytes.
pub(crate) fn plan(
    alloc: Global,
    parents: &[usize],
    nodes: &[NodeState],
    leaves: &[usize],
    object: u32,
) -> Result<Plan, AllocError>
    ensures parents { IfOk result (λ p. p.parents.items ≡ parents.now) }
    ensures nodes { IfOk result (λ p. p.nodes.items ≡ nodes.now) }
    ensures leaves { IfOk result (λ p. p.leaves.items ≡ leaves.now) }
    ensures objects { IfOk result (λ p. p.objects.items ≡ object ∷ []) }
{
    Ok(Plan {
        parents: parents.to_vec(alloc)?,
        nodes: nodes.to_vec(alloc)?,
        leaves: leaves.to_vec(alloc)?,
        objects: vec![in alloc; object]?,
    })
}

// A server and a client below the root, without capabilities.
fn pair(alloc: Global) -> Result<Market, AllocError>
    ensures parties { IfOk result (λ m. AreParties m.trades m.server m.client) }
    ensures quiet { IfOk result (λ m. IsQuiet m.trades) }
{
    let nodes = [live(65536, 0), live(4096, 0), live(16384, 0)];
    let plan = plan(alloc, &[0, 0, 0], &nodes, &[1, 2], 100)?;
    Ok(Market::new(Trades::new(alloc, 65536, None, plan, 24)?))
}

// The same with ten capabilities, one of them the client's.
fn pair_with_caps(alloc: Global) -> Result<Market, AllocError>
    ensures parties { IfOk result (λ m. AreParties m.trades m.server m.client) }
    ensures quiet { IfOk result (λ m. IsQuiet m.trades) }
    ensures counted { IfOk result (λ m. m.trades.trading.ledger.price ≡ 1) }
{
    let nodes = [live(65536, 10), live(4096, 0), live(16384, 1)];
    let plan = plan(alloc, &[0, 0, 0], &nodes, &[1, 2], 100)?;
    Ok(Market::new(Trades::new(alloc, 65536, Some(10), plan, 24)?))
}

// A server below the root, and a client below two more inits.
fn deep_pair(alloc: Global) -> Result<Market, AllocError>
    ensures parties { IfOk result (λ m. AreParties m.trades m.server m.client) }
    ensures quiet { IfOk result (λ m. IsQuiet m.trades) }
{
    let nodes = [
        live(65536, 0),
        live(4096, 0),
        live(40960, 0),
        live(24576, 0),
        live(16384, 0),
    ];
    let plan = plan(alloc, &[0, 0, 0, 2, 3], &nodes, &[1, 4], 100)?;
    Ok(Market::new(Trades::new(alloc, 65536, None, plan, 24)?))
}

// A server and two clients.
fn trio(alloc: Global) -> Result<Trades, AllocError>
    ensures { IfOk result (λ w. IsTrio w) }
{
    let nodes = [
        live(65536, 0),
        live(4096, 0),
        live(16384, 0),
        live(16384, 0),
    ];
    let plan = plan(alloc, &[0, 0, 0, 0], &nodes, &[1, 2, 3], 100)?;
    Trades::new(alloc, 65536, None, plan, 24)
}

// The second client asks, then the first.
fn both_ask(trades: &mut Trades) -> Result<(), AccountFault>
    requires { IsTrio trades.old }
    ensures live { OnOk result (IsLive trades.new 0) }
    ensures requests { OnOk result (trades.new.trading.requests ≡ request_of 0 ∷ request_of 1 ∷ []) }
{
    let plain = Amount { ram: 4096, caps: 0 };
    let _second = trades.ask(2, SlotId::InLeaf(2, 0), SERVER, 0, plain)?;
    let _first = trades.ask(1, SlotId::InLeaf(1, 0), SERVER, 0, plain)?;
    Ok(())
}

// Three leaves, the second of which starts after the first, and the third after the second.
fn line(alloc: Global) -> Result<Trades, AllocError>
    ensures { IfOk result (λ w. IsLine w
        (live_node 8192 0 ∷ live_node 8192 0 ∷ pending_node 8192 1 ∷ pending_node 4096 2 ∷ [])) }
{
    let nodes = [
        live(8192, 0),
        live(8192, 0),
        pending(8192, 1),
        pending(4096, 2),
    ];
    let plan = plan(alloc, &[0, 0, 0, 0], &nodes, &[1, 2, 3], 100)?;
    Trades::new(alloc, 8192, None, plan, 24)
}

// The quotas of a leaf and of the root.
fn quotas_of(trades: &Trades, leaf: usize) -> (u64, u64)
    requires { IsLive trades.now leaf }
{
    trades.laws();
    let account = trades.leaf_account(leaf);
    let accounts = trades.accounts();
    (
        accounts.quota(account).ram,
        accounts.quota(accounts.root()).ram,
    )
}

// Those of each leaf of a line in turn, while it is live.
fn run_line(trades: &mut Trades) -> [(u64, u64); 3]
    requires { IsLine trades.old (live_node 8192 0 ∷ live_node 8192 0 ∷ pending_node 8192 1 ∷ pending_node 4096 2 ∷ []) }
{
    let first = quotas_of(trades, 0);
    trades.end(0);
    let second = quotas_of(trades, 1);
    trades.end(1);
    let third = quotas_of(trades, 2);
    [first, second, third]
}

// What a market has before a session is asked for, once it is, once it is accepted, and once it is closed.
fn trade(market: &mut Market, ram: u64) -> Option<[Bytes; 4]>
    requires parties { AreParties market.old.trades market.old.server market.old.client }
    requires quiet { IsQuiet market.old.trades }
{
    let before = market.bytes();
    market.ask(Amount { ram, caps: 0 }).ok()?;
    let asked = market.bytes();
    market.accept().ok()?;
    let accepted = market.bytes();
    market.close().ok()?;
    Some([before, asked, accepted, market.bytes()])
}

// The capabilities before a session with one is asked for, once it is accepted, and once it is closed.
fn trade_caps(market: &mut Market) -> Option<[Caps; 3]>
    requires parties { AreParties market.old.trades market.old.server market.old.client }
    requires quiet { IsQuiet market.old.trades }
    requires counted { market.old.trades.trading.ledger.price ≡ 1 }
{
    let before = market.caps();
    market.ask(Amount { ram: 8192, caps: 1 }).ok()?;
    market.accept().ok()?;
    let accepted = market.caps();
    market.close().ok()?;
    Some([before, accepted, market.caps()])
}

// Why a session is refused with a capability too many, and with a byte too many beside that; and what there is then.
fn refused_asks(market: &mut Market) -> Option<(AccountFault, AccountFault, Bytes, Caps)>
    requires parties { AreParties market.old.trades market.old.server market.old.client }
    requires quiet { IsQuiet market.old.trades }
    requires counted { market.old.trades.trading.ledger.price ≡ 1 }
{
    let Err(lacks_caps) = market.ask(Amount { ram: 8192, caps: 2 }) else {
        return None;
    };
    let Err(lacks_bytes) = market.ask(Amount {
        ram: 16385,
        caps: 2,
    }) else {
        return None;
    };
    Some((lacks_caps, lacks_bytes, market.bytes(), market.caps()))
}

// The second client asks, then the first. The session of the request that the server accepts, and that of the one which waits then.
fn serve_one(trades: &mut Trades) -> Option<(Option<usize>, Option<usize>)>
    requires { IsTrio trades.old }
{
    both_ask(trades).ok()?;
    let accepted = trades.accept(SERVER).ok()?;
    let waits = trades.waiting(SERVER);
    Some((accepted.map(|r| r.session), waits.map(|r| r.session)))
}

#[test]
fn gives_the_whole_donation_back(rt: HostRuntime) {
    let alloc = rt.alloc();
    let before = Bytes {
        server: 4096,
        used: 0,
        client: 16384,
        inits: [45056, 0, 0],
    };
    let asked = Bytes {
        server: 12288,
        used: 0,
        client: 8192,
        inits: [45056, 0, 0],
    };
    let accepted = Bytes {
        used: 4096,
        ..asked
    };
    // not even what is more than whole pages is kept
    let asked_for_more = Bytes {
        server: 12289,
        used: 0,
        client: 8191,
        inits: [45056, 0, 0],
    };
    let accepted_for_more = Bytes {
        used: 4096,
        ..asked_for_more
    };
    // the inits on the way keep theirs
    let inits = [8192, 16384, 20480];
    let deep_before = Bytes { inits, ..before };
    let deep_asked = Bytes { inits, ..asked };
    let deep_accepted = Bytes { inits, ..accepted };
    assert_eq!(rt;
        [
            used(pair(alloc), |market| trade(market, 8192)),
            used(pair(alloc), |market| trade(market, 8193)),
            used(deep_pair(alloc), |market| trade(market, 8192))
        ],
        [
            Ok(Some([before, asked, accepted, before])),
            Ok(Some([before, asked_for_more, accepted_for_more, before])),
            Ok(Some([deep_before, deep_asked, deep_accepted, deep_before]))
        ]
    );
}

#[test]
fn starts_leaves_one_after_the_other(rt: HostRuntime) {
    assert_eq!(rt;
        used(line(rt.alloc()), run_line),
        Ok([(8192, 0), (8192, 0), (4096, 4096)])
    );
}

// Capabilities come back, and a refusal changes nothing.
#[test]
fn gives_capabilities_back(rt: HostRuntime) {
    let alloc = rt.alloc();
    let before = Caps {
        server: 0,
        used: 0,
        client: 1,
    };
    let accepted = Caps {
        server: 1,
        used: 1,
        client: 0,
    };
    let bytes = Bytes {
        server: 4096,
        used: 0,
        client: 16384,
        inits: [45056, 0, 0],
    };
    assert_eq!(rt;
        (
            used(pair_with_caps(alloc), trade_caps),
            used(pair_with_caps(alloc), refused_asks)
        ),
        (
            Ok(Some([before, accepted, before])),
            Ok(Some((
                AccountFault::CapsExceeded,
                AccountFault::Exceeded,
                bytes,
                before
            )))
        )
    );
}

#[test]
fn accepts_the_oldest_request_first(rt: HostRuntime) {
    assert_eq!(rt;
        used(trio(rt.alloc()), serve_one),
        Ok(Some((Some(0), Some(1))))
    );
}
