// What statements are to give for sessions, so that they give just what is needed.
ghost use Rattle.std.specs.Prelude.{◌≡◌, ◌<◌, ◌++◌, ◌∷◌, ℕ, List, [], IsTrue, None, false, IfOk, IfErr, IfSome, get_or, map};
ghost use Rattle.gq_model.specs.machine.Sections.{is_section};
ghost use Rattle.gq_model.specs.machine.Scenario as model;
ghost use Rattle.gq_model.specs.machine.Scenario.{system};
ghost use Rattle.gq_load.specs.Load_faults.{PrintsFault};
ghost use Rattle.gq_load.specs.Unsized_judgement.{unsized_fault};
ghost use Rattle.gq_scenario.specs.Without_quantities.{unsized};
ghost use Rattle.gq_verify.specs.Visits.{section_sights};
ghost use Rattle.gq_sizes.specs.Donated.{all_donated, donated_in, leaf_donated, leaf_list};
ghost use Rattle.gq_sizes.specs.Endless.{IsWithoutEnd, SessionsEnd, endless_up_to, first_endless, is_endless};
ghost use Rattle.gq_sizes.specs.Judged_scenario.{fault_without};
ghost use Rattle.gq_sizes.specs.Passing.{endless_rows, tests};
ghost use Rattle.gq_sizes.specs.Point_maxima.{given_in};

use crate::endless::endless;
use crate::faultless_programs::all_verified;
use crate::interface_lines::is_endless_at;
use crate::needs::free_ram;
use crate::point_maxima::{LEVELS, LeastGifts};
use crate::section_levels::levels_are_low;
use gq_load::load_fault::LoadError;
use gq_load::unsized_scenarios::{Unsized, judge_unsized};
use gq_model::program::Name;
use gq_program::{Instruction, Interfaces, Section};
use gq_resolve::component::{Component, components};
use gq_rules::{AbstractState, Context};
use gq_scenario::scenario::Scenario;
use gq_scenario::without_quantities::without_quantities;
use gq_verify::{Verified, Visitor};
use std::alloc::{AllocError, Global};

/// What the statements `open` and `upgrade` of a section are to give, in their order.
#[derive(Drop)]
pub struct SectionDonations {
    pub section: Section,
    pub amounts: Vec<u64>,
}

/// What the statements of a scenario are to give.
#[derive(Drop)]
pub struct Donations {
    /// Of each leaf in preorder, of each of its sections.
    pub leaves: Vec<Vec<SectionDonations>>,
    /// The first interface whose sessions hold one another without end, so that no donation is enough.
    pub endless: Option<Name>,
}

/// Collects what the statements of a section are to give, by what sessions need.
#[derive(Drop)]
struct Donating<'a> {
    needs: &'a LeastGifts<'a>,
    amounts: Vec<u64>,
    refused: bool,
}

impl<'a> Donating<'a> {
    /// So much is to be given next.
    fn put(&mut self, amount: u64)
        ensures needs { self.new.needs ≡ self.old.needs }
        ensures kept { self.new.refused ≡ false → self.old.refused ≡ false }
        ensures put { self.new.refused ≡ false → self.new.amounts.items ≡ self.old.amounts.items ++ amount ∷ [] }
    {
        if self.amounts.push(amount).is_err() {
            self.refused = true;
        }
    }
}

impl<'a> Visitor for Donating<'a> {
    ghost use Rattle.std.specs.Prelude.{◌≡◌, ◌++◌, false};
    ghost use Rattle.gq_sizes.specs.Donated.{donated};
    ghost use Rattle.gq_sizes.specs.Point_maxima.{given_in};

    ghost leads = { λ a e b. (b.needs ≡ a.needs) × (b.refused ≡ false → a.refused ≡ false)
        × (b.refused ≡ false → b.amounts.items ≡ a.amounts.items ++ donated (given_in a.needs.now.interfaces.now a.needs.now.sums.now) e) };

    fn statement(
        &mut self,
        context: &Context<'_>,
        state: &AbstractState,
        instruction: &Instruction,
    ) {
        match instruction {
            Instruction::Open(_, service, _) => {
                let amount = self.needs.of(service.as_bytes(), 0);
                self.put(amount);
            }
            Instruction::Upgrade(place, _) => {
                if let Some(link) = context.link_at(state, *place) {
                    let below = self.needs.of(link.service(), link.level());
                    let amount = self.needs.of(link.service(), link.level() + 1);
                    self.put(amount.saturating_sub(below));
                }
            }
            _ => {}
        }
    }

    fn point(&mut self, _number: u64, _state: &AbstractState) {}
}

/// What the statements of a section are to give.
fn section_donations(
    alloc: Global,
    verified: &Verified<'_>,
    section: Section,
    needs: &LeastGifts<'_>,
) -> Result<SectionDonations, AllocError>
    requires { IsTrue (is_section section) }
    ensures section { IfOk result (λ d. d.section ≡ section) }
    ensures amounts { IfOk result (λ d. d.amounts.items
        ≡ donated_in (given_in needs.now.interfaces.now needs.now.sums.now) (section_sights verified.now section)) }
{
    let mut visitor = Donating {
        needs,
        amounts: Vec::new(alloc),
        refused: false,
    };
    verified.visit(section, &mut visitor);
    if visitor.refused {
        return Err(AllocError);
    }
    Ok(SectionDonations {
        section,
        amounts: visitor.amounts,
    })
}

/// What the statements of a leaf are to give.
fn leaf_donations(
    alloc: Global,
    verified: &Verified<'_>,
    needs: &LeastGifts<'_>,
) -> Result<Vec<SectionDonations>, AllocError>
    ensures { IfOk result (λ l. leaf_list l
        ≡ leaf_donated (given_in needs.now.interfaces.now needs.now.sums.now) verified.now) }
{
    let mut sections = Vec::new(alloc);
    for (section, _body) in verified.sections() {
        sections.push(section_donations(alloc, verified, *section, needs)?)?;
    }
    Ok(sections)
}

/// What the statements of these leaves are to give.
fn all_donations(
    alloc: Global,
    leaves: &[Verified<'_>],
    needs: &LeastGifts<'_>,
) -> Result<Vec<Vec<SectionDonations>>, AllocError>
    ensures { IfOk result (λ l. map leaf_list l.items
        ≡ map (leaf_donated (given_in needs.now.interfaces.now needs.now.sums.now)) leaves.now) }
{
    let mut donations = Vec::new(alloc);
    for verified in leaves {
        donations.push(leaf_donations(alloc, verified, needs)?)?;
    }
    Ok(donations)
}

/// Whether sessions of the interface at a place hold one another without end, at one of the levels up to this.
fn is_endless_up_to(endless: &[[bool; LEVELS]], place: usize, level: usize) -> bool
    requires { level < 4 }
    ensures { (all : model.System) (service : List ℕ) → get_or endless.now place [] ≡ tests (is_endless all service)
        → result ≡ endless_up_to all service level }
{
    if is_endless_at(endless, place, level) {
        return true;
    }
    if level == 0 {
        return false;
    }
    is_endless_up_to(endless, place, level - 1)
}

/// The first interface whose sessions hold one another without end, at a level that it has.
fn first_endless(interfaces: &Interfaces, endless: &[[bool; LEVELS]]) -> Option<Name>
    ensures { (all : model.System) → endless.now ≡ endless_rows all interfaces.now → result ≡ first_endless all interfaces.now }
{
    for (place, entry) in interfaces.entries().iter().enumerate() {
        let (service, interface) = entry;
        if is_endless_up_to(endless, place, interface.upgrades().len()) {
            return Some(service.copied());
        }
    }
    None
}

/// What the statements of a scenario are to give, by this one without its quantities.
fn donations_of(
    alloc: Global,
    free: &Scenario,
    components: &[Component<'_>],
    judged: &Unsized,
) -> Result<Donations, AllocError>
    requires components { components.now ≡ model.components free.now }
    requires programs { judged.now.programs.items ≡ map (λ c. c.node.program) components.now }
    requires faultless { unsized_fault free.now ≡ None }
    ensures leaves { IfOk result (λ d. map leaf_list d.leaves.items ≡ all_donated (system free.now)) }
    ensures endless { IfOk result (λ d. d.endless ≡ first_endless (system free.now) free.now.interfaces) }
{
    let interfaces = free.interfaces();
    let verified = all_verified(alloc, components, judged.programs.as_slice(), interfaces)?;
    levels_are_low(verified.as_slice());
    let needs = free_ram(alloc, components, verified.as_slice(), interfaces)?;
    let endless = endless(alloc, components, verified.as_slice(), interfaces)?;
    let given = LeastGifts {
        interfaces,
        sums: needs.as_slice(),
    };
    Ok(Donations {
        leaves: all_donations(alloc, verified.as_slice(), &given)?,
        endless: first_endless(interfaces, endless.as_slice()),
    })
}

/// What the statements of a scenario are to give, by this one without its quantities; or the first fault of this one.
fn donations_without(alloc: Global, free: &Scenario) -> Result<Donations, LoadError>
    ensures leaves { IfOk result (λ d. map leaf_list d.leaves.items ≡ all_donated (system free.now)) }
    ensures endless { IfOk result (λ d. d.endless ≡ first_endless (system free.now) free.now.interfaces) }
    ensures faultless { IfOk result (λ d. unsized_fault free.now ≡ None) }
    ensures refused { IfErr result (λ e. PrintsFault e (unsized_fault free.now)) }
{
    let components = components(alloc, free)?;
    let judged = judge_unsized(alloc, free, components.as_slice())?;
    Ok(donations_of(alloc, free, components.as_slice(), &judged)?)
}

/// What each statement of a scenario is to give: an `open` the bytes that a session needs at level 0, an `upgrade` what one of the next level needs more.
///
/// What sessions need counts what the statements of their servers give now. Once these give what is reported here, sessions may need more: a caller asks again
/// until nothing changes. Fails with the first fault that no quantity decides, or if the host refuses memory.
pub fn least_donations(alloc: Global, scenario: &Scenario) -> Result<Donations, LoadError>
    ensures leaves { IfOk result (λ d. map leaf_list d.leaves.items
        ≡ all_donated (system (unsized scenario.now))) }
    ensures first { IfOk result (λ d. d.endless ≡ first_endless (system (unsized scenario.now)) scenario.now.interfaces) }
    ensures endless { IfOk result (λ d. IfSome d.endless (IsWithoutEnd scenario.now)) }
    ensures ends { IfOk result (λ d. d.endless ≡ None → SessionsEnd scenario.now) }
    ensures faultless { IfOk result (λ d. fault_without scenario.now ≡ None) }
    ensures refused { IfErr result (λ e. PrintsFault e (fault_without scenario.now)) }
{
    let _in_order = scenario.interfaces().entries();
    let free = without_quantities(alloc, scenario)?;
    let found = donations_without(alloc, &free);
    drop(free);
    found
}
