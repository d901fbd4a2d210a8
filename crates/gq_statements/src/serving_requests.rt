// Requests that a serving leaf takes.
ghost use Rattle.std.specs.Prelude.{◌≡◌, ◌<◌, ◌≤◌, ◌+◌, if◌then◌else◌, false, not, nat_eq, OnErr, OnOk, IsTrue, get_or};
ghost use Rattle.gq_model.specs.machine.Sections.{is_section, section_number};
ghost use Rattle.gq_model.specs.machine.World as world;
ghost use Rattle.gq_model.specs.machine.Doing.{Doing};
ghost use Rattle.gq_model.specs.machine.Step as step;
ghost use Rattle.gq_model.specs.machine.Step.{section_asked};
ghost use Rattle.gq_trade.specs.Seen_requests.{ask_seen};
ghost use Rattle.gq_trade.specs.declared.requests.Ask.TheVariants as asks;
ghost use Rattle.gq_slots.specs.Slots.{Frame, memory_of, world_seen};
ghost use Rattle.gq_slots.specs.Session_calls.{TakesOldest};
ghost use Rattle.gq_statements.specs.Serving.{AreSections, Begins, IsNextRequest, KnowsService, found, taken};
ghost use Rattle.gq_trade.specs.Trading.{store_of};
ghost use Rattle.gq_trade.specs.Trades.{IsLive};
ghost use Rattle.gq_statements.specs.internal.Beginning.{can_pay, has_some};
ghost use Rattle.gq_model.specs.declared.fault.Wrong.TheVariants as wrong;

use crate::paid_laws::lawful;
use gq_model::fault::Wrong;
use gq_model::section::Section;
use gq_slots::{Slots, sessions};
use gq_tariff::round_up;
use gq_trade::{Ask, Request, Trades};

/// What a leaf that serves knows of its program and its service: which sections it has, each at its place in `Section::ALL`. How many bytes the object of a
/// session has, and whether capabilities are counted.
#[derive(Clone, Copy)]
pub struct Provider<'a> {
    pub sections: &'a [bool; Section::ALL.len()],
    pub object: u32,
    pub counts_caps: bool,
}

impl<'a> Provider<'a> {
    // Whether the program has a section.
    fn has(&self, section: Section) -> bool
        requires { IsTrue (is_section section) }
        ensures { result ≡ get_or self.now.sections.now (section_number section) false }
    {
        self.sections[section.number()]
    }

    // What is wrong where the program has no section for a request: it can't be paid for, or the section is missing.
    fn wrong_without(&self, slots: &Slots, server: usize, ask: Ask) -> Wrong
        requires live { IsLive slots.now.trades server }
        requires counted { self.now.counts_caps ≡ not (nat_eq slots.now.trades.trading.ledger.price 0) }
        requires size { self.now.object ≤ 67108864 }
        ensures { result ≡ (if can_pay ask self.now.object (memory_of slots.now server) then wrong.MissingSection else wrong.ExceededQuota) }
    {
        if self.can_pay(slots.trades(), server, ask) {
            Wrong::MissingSection
        } else {
            Wrong::ExceededQuota
        }
    }

    // Whether the account of a server can pay for what a request makes.
    fn can_pay(&self, trades: &Trades, server: usize, ask: Ask) -> bool
        requires live { IsLive trades.now server }
        requires counted { self.now.counts_caps ≡ not (nat_eq trades.now.trading.ledger.price 0) }
        requires size { self.now.object ≤ 67108864 }
        ensures { result ≡ can_pay ask self.now.object (store_of trades.now.trading server) }
    {
        trades.laws();
        match ask {
            Ask::Open => {
                let price = round_up(u64::from(self.object) + 32);
                let avail = trades.accounts().avail(trades.leaf_account(server));
                price <= avail.ram && self.has_caps(trades, server)
            }
            Ask::Upgrade | Ask::Close | Ask::Call(_) => true,
        }
    }

    // Whether the account of a server has a capability left, where they are counted.
    fn has_caps(&self, trades: &Trades, server: usize) -> bool
        requires live { IsLive trades.now server }
        requires counted { self.now.counts_caps ≡ not (nat_eq trades.now.trading.ledger.price 0) }
        ensures { result ≡ has_some (store_of trades.now.trading server).caps }
    {
        trades.laws();
        let avail = trades.accounts().avail(trades.leaf_account(server));
        !self.counts_caps || avail.caps > 0
    }
}

/// The section that a request to a session of a level starts.
#[inline(always)]
pub fn section_asked(ask: Ask, level: u8) -> Section
    requires { level ≤ 3 }
    ensures is { result ≡ section_asked (ask_seen ask) level }
    ensures section { (ask ≡ asks.Upgrade → level < 3) → IsTrue (is_section result) }
{
    match ask {
        Ask::Open => Section::Opening,
        Ask::Upgrade => Section::Upgrading(level + 1),
        Ask::Close => Section::Closing(level),
        Ask::Call(_) => Section::Calling(level),
    }
}

/// A leaf that serves takes the oldest request to it, which is this one, and is at the start of its section. A request to open makes the session's object;
/// one to upgrade raises the level.
///
/// `ExceededQuota` where the object can't be paid, else `MissingSection` where the leaf's program has no such section; then nothing changes.
#[inline(always)]
pub fn accept(
    provider: &Provider,
    slots: &mut Slots,
    server: usize,
    request: Request,
) -> Result<(), Wrong>
    requires live { IsLive slots.old.trades server }
    requires first { IsNextRequest slots.old server request }
    requires knows { KnowsService slots.old request.session provider.now.object provider.now.counts_caps }
    ensures step { (e : Frame) (f : world.Request → Frame) (d : Doing) → d.x ≡ server → d.world ≡ world_seen e slots.old
        → AreSections provider.now.sections.now d.component → Begins d f slots.old
        → step.accept_oldest d (step.oldest d.world d.x d.world.requests) ≡ taken d f slots.new (found request result) }
    ensures takes { OnOk result (TakesOldest slots.old slots.new server request) }
    ensures unchanged { OnErr result (slots.new ≡ slots.old) }
{
    lawful(slots);
    slots.laws();
    let level = slots.trades().level(request.session);
    let section = section_asked(request.ask, level);
    if !provider.has(section) {
        return Err(provider.wrong_without(slots, server, request.ask));
    }
    match sessions::accept(slots, server) {
        Err(_) => Err(Wrong::ExceededQuota),
        Ok(_) => {
            lawful(slots);
            Ok(())
        }
    }
}
