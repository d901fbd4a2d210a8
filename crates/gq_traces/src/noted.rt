// What is noted of a world: how each account stands, and what is reported of each session.
ghost use Rattle.std.specs.Prelude.{◌≡◌, ℕ, ◌<◌, ◌≤◌, IfOk, Some, None, get_or, length, map};
ghost use Rattle.gq_model.specs.machine.Scenario.{components};
ghost use Rattle.gq_resolve.specs.NodeTables.{node_rows};
ghost use Rattle.gq_world.specs.Headline.{Standing};
ghost use Rattle.gq_world.specs.Account_lines.{all_accounts};
ghost use Rattle.gq_traces.specs.Trace.{same_phase, same_standing, same_using, standing_of, using_of};
ghost use Rattle.gq_traces.specs.internal.Noted.{AreNoted, CanRenew, IsReported, IsUse, standing_in};

use crate::session_lines::{PrintedSession, printed_session, same_amount};
use gq_machine::machine::Machine;
use gq_model::limits::GREATEST_SESSIONS;
use gq_model::phase::Phase;
use gq_output::account_report::{AccountReport, LeafAccount};
use gq_scenario::node_numbers::NodeNo;
use gq_scenario::scenario::LeafNo;
use gq_tariff::Amount;
use gq_world::world::World;
use std::alloc::{AllocError, Global};

/// How many sessions there are at most, by their numbers.
pub(crate) const ROOM: usize = GREATEST_SESSIONS;

/// What is noted of a world: the account of each node, and what is reported of each session, with room for all. No call but `new` allocates host memory.
#[derive(Drop)]
pub(crate) struct PrintedState {
    pub accounts: Vec<AccountReport>,
    pub sessions: Vec<Option<PrintedSession>>,
    // How many numbers of sessions have been used.
    pub count: usize,
}

/// What a leaf holds and what it does.
#[derive(Clone, Copy)]
pub(crate) struct Use {
    pub used: Amount,
    pub phase: Phase,
}

/// What a leaf holds and what it does now.
pub(crate) fn use_of(machine: &Machine, leaf: LeafNo) -> Use
    requires leaf { leaf < length (components machine.now.scenario) }
    requires leaves { length machine.now.world.leaves ≡ length (components machine.now.scenario) }
    ensures { IsUse machine.now.scenario machine.now.world leaf result }
{
    Use {
        used: machine.used(leaf),
        phase: machine.phase(leaf),
    }
}

/// A world has a leaf for each component, and an account for each node, and is one from which all that is promised follows. It does nothing.
pub(crate) fn counted(world: &World)
    ensures stands { Standing world.now }
    ensures leaves { length world.now.world.leaves ≡ length (components world.now.scenario) }
    ensures accounts { length (all_accounts world.now) ≡ length (node_rows world.now.scenario) }
{
    let _machine = world.machine();
}

// Accounts for all nodes.
fn first_accounts(alloc: Global, world: &World) -> Result<Vec<AccountReport>, AllocError>
    ensures { IfOk result (λ all. length all.items ≡ length (all_accounts world.now)) }
{
    let mut accounts = Vec::new(alloc);
    for _ in 0..world.nodes() {
        accounts.push(AccountReport::new(Amount { ram: 0, caps: 0 }, None))?;
    }
    Ok(accounts)
}

// Room for all sessions, of which nothing is noted.
fn first_sessions(alloc: Global) -> Result<Vec<Option<PrintedSession>>, AllocError>
    ensures room { IfOk result (λ all. length all.items ≡ 16449) }
    ensures none { IfOk result (λ all. (k : ℕ) → get_or all.items k None ≡ None) }
{
    let mut sessions = Vec::with_capacity(alloc, ROOM)?;
    for _ in 0..ROOM {
        sessions.push(None)?;
    }
    Ok(sessions)
}

// Whether two leaves hold and do the same.
fn same_leaf(a: &LeafAccount, b: &LeafAccount) -> bool
    ensures { result ≡ same_using (using_of (Some a.now)) (using_of (Some b.now)) }
{
    same_amount(used_of(a), used_of(b)) && same_phase(a.phase(), b.phase())
}

// What a leaf holds.
fn used_of(leaf: &LeafAccount) -> Amount
    ensures { result ≡ leaf.now.used }
{
    Amount {
        ram: leaf.used(),
        caps: leaf.caps_used(),
    }
}

// What a node has.
fn quota_of(account: &AccountReport) -> Amount
    ensures { result ≡ account.now.quota }
{
    Amount {
        ram: account.quota(),
        caps: account.caps(),
    }
}

/// Whether two phases are one.
pub(crate) fn same_phase(a: Phase, b: Phase) -> bool
    ensures { result ≡ same_phase a b }
{
    a == b
}

/// Whether two accounts are one but for the steps of their leaf.
pub(crate) fn same_account(a: &AccountReport, b: &AccountReport) -> bool
    ensures { result ≡ same_standing (standing_in a.now) (standing_in b.now) }
{
    if !same_amount(quota_of(a), quota_of(b)) {
        return false;
    }
    match (a.leaf(), b.leaf()) {
        (None, None) => true,
        (Some(a), Some(b)) => same_leaf(&a, &b),
        _ => false,
    }
}

impl PrintedState {
    /// A world is noted. Refused only if the host refuses memory.
    pub(crate) fn new(alloc: Global, world: &World) -> Result<PrintedState, AllocError>
        ensures { IfOk result (λ n. AreNoted world.now.scenario world.now.world n) }
    {
        counted(world);
        let accounts = first_accounts(alloc, world)?;
        let sessions = first_sessions(alloc)?;
        let mut notes = PrintedState {
            accounts,
            sessions,
            count: 0,
        };
        notes.renew(world);
        Ok(notes)
    }

    // Notes a world anew. It allocates no host memory.
    fn renew(&mut self, world: &World)
        requires leaves { length world.now.world.leaves ≡ length (components world.now.scenario) }
        requires can { CanRenew world.now self.old }
        ensures { AreNoted world.now.scenario world.now.world self.new }
    {
        self.renew_accounts(world);
        let count = world.machine().session_count();
        self.renew_sessions(world, count.max(self.count));
        self.count = count;
    }

    // Notes the accounts of all nodes anew.
    fn renew_accounts(&mut self, world: &World)
        requires { length self.old.accounts.items ≡ length (all_accounts world.now) }
        ensures accounts { map standing_in self.new.accounts.items ≡ map standing_of (all_accounts world.now) }
        ensures sessions { self.new.sessions ≡ self.old.sessions }
        ensures count { self.new.count ≡ self.old.count }
    {
        for number in 0..world.nodes() {
            self.accounts[number] = world.account(NodeNo::new(number as u32));
        }
    }

    // Notes the first sessions anew, so many.
    fn renew_sessions(&mut self, world: &World, count: usize)
        requires leaves { length world.now.world.leaves ≡ length (components world.now.scenario) }
        requires room { length self.old.sessions.items ≡ 16449 }
        requires few { count ≤ 16449 }
        ensures reported { (k : ℕ) → k < count → IsReported world.now.scenario world.now.world k (get_or self.new.sessions.items k None) }
        ensures others { (k : ℕ) → count ≤ k → get_or self.new.sessions.items k None ≡ get_or self.old.sessions.items k None }
        ensures room { length self.new.sessions.items ≡ 16449 }
        ensures accounts { self.new.accounts ≡ self.old.accounts }
        ensures count { self.new.count ≡ self.old.count }
    {
        for session in 0..count {
            self.sessions[session] = printed_session(world.machine(), session);
        }
    }
}
