// The rules for sessions.
ghost use Rattle.std.specs.Prelude.{◌≡◌, ◌≤◌, length, take, option_map};
ghost use Rattle.gq_model.specs.machine.Amounts.{Ram, Caps};
ghost use Rattle.gq_model.specs.rules.Kinds.{kind_at, need_of, session_cost};
ghost use Rattle.gq_model.specs.machine.Sections.{level_of};
ghost use Rattle.gq_model.specs.rules.Rules.{judge, opened, upgraded, closed, link_kind, covered, within_need};
ghost use Rattle.gq_caps.specs.Known.{all_known};
ghost use Rattle.gq_rules.specs.Judging.{after, link_parts};

use crate::context::Context;
use crate::known_state::AbstractState;
use crate::memory_rules::is_empty;
use crate::operand_rules::must;
use gq_caps::{Bank, Kind, Link};
use gq_model::fault::Rule;
use gq_model::limits::SESSION_SLOTS;
use gq_program::{Counts, Instruction, Interface, Name, OperandSlot, Section, Upgrade};
use gq_tariff::Amount;
use gq_tariff::price::price_slice;

impl<'a> Context<'a> {
    /// The link in a slot.
    pub fn link_at(&self, state: &AbstractState, place: OperandSlot) -> Option<Link>
        ensures { option_map link_parts result ≡ link_kind (kind_at self.now state.now place) }
    {
        match self.kind_at(state, place) {
            Some(Kind::Link(link)) => Some(link),
            _ => None,
        }
    }

    /// A session is opened, for which so many bytes are given.
    pub(crate) fn open(
        &self,
        state: &mut AbstractState,
        place: OperandSlot,
        service: &Name,
        given: u32,
    ) -> Result<(), Rule>
        ensures { after result state.new ≡ opened self.now state.old place service.now given }
    {
        let Some(old) = self.kind_at(state, place) else {
            return Err(Rule::WrongKind);
        };
        must(is_empty(&old), Rule::SlotInUse)?;
        must(self.may_change(place), Rule::OwnBankChanged)?;
        let Some(interface) = self.subject().interface(service.as_bytes()) else {
            return Err(Rule::UnknownService);
        };
        must(interface.need() <= given, Rule::ShortDonation)?;
        let link = Link::opened(service, given, interface.given_caps());
        state.set(place, Kind::Link(link));
        Ok(())
    }

    /// A session gets to its next level, for which so many more bytes are given.
    pub(crate) fn upgrade(
        &self,
        state: &mut AbstractState,
        place: OperandSlot,
        given: u32,
    ) -> Result<(), Rule>
        ensures { after result state.new ≡ upgraded self.now state.old place given }
    {
        let Some(link) = self.link_at(state, place) else {
            return Err(Rule::WrongKind);
        };
        let Some(interface) = self.subject().interface(link.service()) else {
            return Err(Rule::UnknownService);
        };
        let Some(next) = interface.upgrades().get(usize::from(link.level())) else {
            return Err(Rule::OutOfRange);
        };
        must(self.may_change(place), Rule::OwnBankChanged)?;
        must(next.ram() <= given, Rule::ShortDonation)?;
        state.set(place, Kind::Link(link.upgraded(given, next.caps())));
        Ok(())
    }

    /// A session is called with the top operand, and its reply becomes the top operand.
    pub(crate) fn call(&self, state: &mut AbstractState, place: OperandSlot) -> Result<(), Rule>
        ensures { after result state.new ≡ judge self.now state.old (Instruction.Call place) }
    {
        let argument = state.pop()?;
        let Some(link) = self.link_at(state, place) else {
            return Err(Rule::WrongKind);
        };
        let Some(interface) = self.subject().interface(link.service()) else {
            return Err(Rule::UnknownService);
        };
        must(argument <= interface.arg(), Rule::ValueTooLarge)?;
        state.push(interface.reply())
    }

    /// A session is closed.
    pub(crate) fn close(&self, state: &mut AbstractState, place: OperandSlot) -> Result<(), Rule>
        ensures { after result state.new ≡ closed self.now state.old place }
    {
        let Some(link) = self.link_at(state, place) else {
            return Err(Rule::WrongKind);
        };
        if self.subject().interface(link.service()).is_none() {
            return Err(Rule::UnknownService);
        }
        must(self.may_change(place), Rule::OwnBankChanged)?;
        state.set(place, Kind::Empty);
        Ok(())
    }

    /// Whether the current session costs no more than was given for it.
    #[inline(always)]
    pub fn within_need(&self, state: &AbstractState) -> Result<(), Rule>
        ensures { after result state.now ≡ within_need self.now.section self.now.subject.provided state.now }
    {
        if self.is_own() {
            return Ok(());
        }
        match self.subject().provided() {
            Some(interface) => covered(interface, self.section().level(), state),
            None => Ok(()),
        }
    }
}

/// The upgrades up to this level.
fn upgrades_to(interface: &Interface, level: u8) -> &[Upgrade]
    ensures upgrades { result.now ≡ take level interface.now.upgrades }
    ensures few { length result.now ≤ 3 }
{
    let upgrades = interface.upgrades();
    if usize::from(level) < upgrades.len() {
        &upgrades[..usize::from(level)]
    } else {
        upgrades
    }
}

/// What a client gives for a session of this level.
pub fn need_of(interface: &Interface, level: u8) -> Amount
    ensures { result ≡ need_of interface.now level }
{
    let mut ram = u64::from(interface.need());
    let mut caps = u64::from(interface.given_caps());
    for upgrade in upgrades_to(interface, level) {
        ram += u64::from(upgrade.ram());
        caps += u64::from(upgrade.caps());
    }
    Amount { ram, caps }
}

/// What a session costs its server: its object and its slots.
pub fn session_cost(interface: &Interface, bank: &Bank<SESSION_SLOTS>) -> Amount
    ensures ram { result.ram ≡ session_cost Ram interface.now (all_known bank.now) }
    ensures caps { result.caps ≡ session_cost Caps interface.now (all_known bank.now) }
{
    let slots = bank.cost();
    Amount {
        ram: price_slice(u64::from(interface.object())) + slots.ram,
        caps: 1 + slots.caps,
    }
}

/// Whether a session of this level costs no more than is given for it, in the resources that are counted.
#[inline(never)]
fn covered(interface: &Interface, level: u8, state: &AbstractState) -> Result<(), Rule>
    ensures { after result state.now ≡ covered interface.now.counted interface.now level state.now }
{
    let need = need_of(interface, level);
    let cost = session_cost(interface, state.bank());
    match interface.counts() {
        Counts::Nothing => Ok(()),
        Counts::Bytes => must(cost.ram <= need.ram, Rule::OverNeed),
        Counts::BytesAndCaps => {
            must(cost.ram <= need.ram, Rule::OverNeed)?;
            must(cost.caps <= need.caps, Rule::OverCaps)
        }
    }
}
