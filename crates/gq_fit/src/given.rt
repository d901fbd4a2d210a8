// What is made of a scenario's text, and that its programs give just what sessions need.
ghost use Rattle.std.specs.Prelude.{◌≡◌, Ok, None, true, IsTrue, IfOk, IfErr, IfSome, OnOk};
ghost use Rattle.gq_model.specs.machine.Lists.{any_of};
ghost use Rattle.gq_scenario.specs.Top_table.{scenario_in};
ghost use Rattle.gq_sizes.specs.Gives.{GivesLeast};
ghost use Rattle.gq_sizes.specs.Judged_scenario.{fault_without};
ghost use Rattle.gq_fit.specs.Fitted.{IsBefore, IsFittedWhole, IsOwnFitWhole, IsReasonWhole, is_coded};
ghost use Rattle.gq_fit.specs.Refitted.{IsRefitted};
ghost use Rattle.gq_fit.specs.Value_edits.{DiffersInValues};
ghost use Rattle.gq_fit.specs.internal.Making.{IsCodeFault, IsEndlessFault, IsGiven};

use crate::edits::Edit;
use crate::fit_fault::{FitFault, MakeError, Misfit, NoFit};
use crate::giving::program_edits;
use crate::made::{
    check_sized, edited_in_order, is_own_fit, loaded_again, read_again, read_first, refused,
};
use crate::quantity_edits::with_quantities;
use crate::refitted::is_refitted;
use gq_load::load_fault::LoadError;
use gq_model::program::Name;
use gq_resolve::component::{Component, components};
use gq_scenario::scenario::Scenario;
use gq_scenario::source::Source;
use gq_sizes::donations::{Donations, least_donations};
use gq_sizes::gives::gives_least;
use gq_sizes::leasts::{Leasts, least_quantities};
use std::alloc::{AllocError, Global};

/// How often a text is made anew, with what its programs are to give: for each level of each of 64 interfaces, and twice more.
const PASSES: usize = 4 * 64 + 2;

/// What changes in the programs of a text.
fn giving_edits(
    alloc: Global,
    text: &[u8],
    scenario: &Scenario,
    donations: &Donations,
) -> Result<Vec<Edit>, MakeError> {
    let Ok(utf8) = str::from_utf8(text) else {
        return Err(MakeError::Misfit(Misfit::Differs));
    };
    program_edits(alloc, utf8, scenario, donations.leaves.as_slice())
}

/// What is found once the programs of a text give what sessions need: the least quantities of its scenario, and what its statements are to give.
#[derive(Drop)]
struct Pass {
    leasts: Leasts,
    donations: Donations,
}

/// What is least where the programs of a text give what is needed, once nothing changes of that any more.
fn settled(alloc: Global, text: &[u8]) -> Result<Pass, MakeError> {
    let mut made = Vec::from_slice(alloc, text)?;
    for _pass in 0..PASSES {
        let scenario = read_again(alloc, made.as_slice())?;
        let donations = match least_donations(alloc, &scenario) {
            Ok(donations) => donations,
            Err(error) => return Err(refused(error)),
        };
        let edits = giving_edits(alloc, made.as_slice(), &scenario, &donations)?;
        if edits.is_empty() {
            return settled_at(alloc, &scenario, donations);
        }
        made = edited_in_order(alloc, true, made.as_slice(), edits)?;
    }
    Err(MakeError::Misfit(Misfit::Differs))
}

/// What is least of a scenario whose programs give this.
fn settled_at(alloc: Global, scenario: &Scenario, donations: Donations) -> Result<Pass, MakeError> {
    match least_quantities(alloc, scenario) {
        Ok(leasts) => Ok(Pass { leasts, donations }),
        Err(error) => Err(refused(error)),
    }
}

/// The text of a scenario with what is least in place of its own.
fn made_text(
    alloc: Global,
    text: &[u8],
    scenario: &Scenario,
    pass: &Pass,
) -> Result<Vec<u8>, MakeError>
    ensures layout { IfOk result (λ made. DiffersInValues true text.now made.items) }
{
    let Ok(utf8) = str::from_utf8(text) else {
        return Err(MakeError::Misfit(Misfit::Differs));
    };
    let edits = giving_edits(alloc, text, scenario, &pass.donations)?;
    let edits = with_quantities(alloc, edits, utf8, scenario, &pass.leasts)?;
    edited_in_order(alloc, true, text, edits)
}

/// Fails where a scenario is not another with other quantities and amounts of `open` and `upgrade`.
fn check_refitted(alloc: Global, made: &Scenario, scenario: &Scenario) -> Result<(), MakeError>
    ensures { OnOk result (IsRefitted scenario.now made.now) }
{
    match is_refitted(alloc, made, scenario) {
        Ok(true) => Ok(()),
        Ok(false) => Err(MakeError::Misfit(Misfit::Differs)),
        Err(error) => Err(refused(error)),
    }
}

/// Fails where the statements of a scenario do not give just what sessions need.
fn check_gives(alloc: Global, made: &Scenario) -> Result<(), MakeError>
    ensures { OnOk result (GivesLeast made.now) }
{
    match gives_least(alloc, made) {
        Ok(true) => Ok(()),
        Ok(false) => Err(MakeError::Misfit(Misfit::Differs)),
        Err(error) => Err(refused(error)),
    }
}

/// Fails where a text that was made has no accepted scenario that is this one but for quantities and amounts, whose numbers are the least ones, and whose
/// statements give them.
fn check_given(alloc: Global, text: &[u8], scenario: &Scenario) -> Result<(), MakeError>
    ensures given { OnOk result (IsGiven text.now scenario.now) }
{
    let made = loaded_again(alloc, text)?;
    check_refitted(alloc, &made, scenario)?;
    check_sized(alloc, &made, &made)?;
    check_gives(alloc, &made)
}

/// Fails with the first interface for whose sessions no donation is enough.
fn check_ends(donations: &Donations) -> Result<(), FitFault>
    ensures { IfErr result (λ f. IsEndlessFault f donations.now.endless) }
{
    match &donations.endless {
        Some(name) => Err(FitFault::NoFit(NoFit::Endless(name.copied()))),
        None => Ok(()),
    }
}

/// The first of these leaves whose program is given as code.
fn coded(components: &[Component<'_>]) -> Option<Name>
    ensures { IfSome result (λ name. any_of (is_coded name) components.now ≡ true) }
{
    let [component, others @ ..] = components else {
        return None;
    };
    match component.leaf().source() {
        Source::Code(_) => Some(component.leaf().name().copied()),
        Source::Text(_) => coded(others),
    }
}

/// Fails with the first leaf whose program is given as code.
fn check_coded(alloc: Global, scenario: &Scenario) -> Result<(), FitFault>
    ensures { IfErr result (λ f. IsCodeFault f scenario.now) }
{
    let components = components(alloc, scenario)?;
    match coded(components.as_slice()) {
        Some(name) => Err(FitFault::NoFit(NoFit::Code(name))),
        None => Ok(()),
    }
}

/// Whether a text is accepted as it is, has the least quantities of its scenario, and gives just what sessions need.
fn is_own_fit_whole(alloc: Global, text: &[u8], scenario: &Scenario) -> Result<bool, AllocError>
    requires read { scenario_in text.now ≡ Ok scenario.now }
    requires faultless { fault_without scenario.now ≡ None }
    ensures fits { IfOk result (λ b. IsTrue b → IsOwnFitWhole text.now scenario.now) }
    ensures only { IfOk result (λ b. IsOwnFitWhole text.now scenario.now → IsTrue b) }
{
    if !is_own_fit(alloc, text, scenario)? {
        return Ok(false);
    }
    match gives_least(alloc, scenario) {
        Ok(gives) => Ok(gives),
        Err(LoadError::Memory) => Err(AllocError),
        Err(LoadError::Fault(_)) => Ok(false),
    }
}

/// The text of a scenario with what is least in place of its own, which was read again.
fn given_by(alloc: Global, text: &[u8], scenario: &Scenario) -> Result<Vec<u8>, MakeError>
    ensures given { IfOk result (λ made. IsGiven made.items scenario.now) }
    ensures layout { IfOk result (λ made. DiffersInValues true text.now made.items) }
{
    let pass = settled(alloc, text)?;
    let made = made_text(alloc, text, scenario, &pass)?;
    check_given(alloc, made.as_slice(), scenario)?;
    Ok(made)
}

/// The text of a scenario whose donations can be fitted, with what is least in place of its own.
fn given_least(alloc: Global, text: &[u8], scenario: &Scenario) -> Result<Vec<u8>, FitFault>
    requires read { scenario_in text.now ≡ Ok scenario.now }
    requires faultless { fault_without scenario.now ≡ None }
    ensures fitted { IfOk result (λ made. IsFittedWhole text.now made.items) }
    ensures refused { IfErr result (λ f. IsReasonWhole f text.now) }
    ensures early { IfErr result (λ f. IsBefore f) }
{
    if is_own_fit_whole(alloc, text, scenario)? {
        return Ok(Vec::from_slice(alloc, text)?);
    }
    Ok(given_by(alloc, text, scenario)?)
}

/// The text of a scenario with what is least in place of its own.
fn given_scenario(alloc: Global, text: &[u8], scenario: &Scenario) -> Result<Vec<u8>, FitFault>
    requires { scenario_in text.now ≡ Ok scenario.now }
    ensures fitted { IfOk result (λ made. IsFittedWhole text.now made.items) }
    ensures refused { IfErr result (λ f. IsReasonWhole f text.now) }
    ensures early { IfErr result (λ f. IsBefore f) }
{
    let donations = least_donations(alloc, scenario)?;
    check_coded(alloc, scenario)?;
    check_ends(&donations)?;
    given_least(alloc, text, scenario)
}

/// A text with the least quantities of its scenario, whose programs give just what sessions need, which was read again.
pub(crate) fn given_text(alloc: Global, text: &[u8]) -> Result<Vec<u8>, FitFault>
    ensures fitted { IfOk result (λ made. IsFittedWhole text.now made.items) }
    ensures refused { IfErr result (λ f. IsReasonWhole f text.now) }
    ensures early { IfErr result (λ f. IsBefore f) }
{
    let scenario = read_first(alloc, text)?;
    let made = given_scenario(alloc, text, &scenario);
    drop(scenario);
    made
}
