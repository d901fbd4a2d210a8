// What is made of a scenario's text, and that its scenario has the least quantities of the old one.
ghost use Rattle.std.specs.Prelude.{◌≡◌, [], Ok, None, false, IsTrue, IfOk, IfErr, OnOk};
ghost use Rattle.gq_scenario.specs.Top_table.{scenario_in};
ghost use Rattle.gq_load.specs.Load.{loaded};
ghost use Rattle.gq_sizes.specs.Judged_scenario.{fault_without, judged_without};
ghost use Rattle.gq_sizes.specs.Least.{IsSized, NoneShort, sized};
ghost use Rattle.gq_fit.specs.Fitted.{IsBefore, IsFitted, IsOwnFit, IsReason};
ghost use Rattle.gq_fit.specs.Value_edits.{DiffersInValues};
ghost use Rattle.gq_fit.specs.internal.Making.{IsDueError, IsRefusedBy, IsShort};
ghost use Rattle.gq_fit.specs.Reasons.{quantities_by};
ghost use Rattle.gq_sizes.specs.Least_numbers.{interfaces_least, nodes_least};

use crate::edits::{Edit, edited};
use crate::fit_fault::{FitFault, MakeError, Misfit};
use crate::quantity_edits::with_quantities;
use gq_load::checked::scenario_lines;
use gq_load::load_fault::{LoadError, LoadFault};
use gq_reader::reader::read_scenario;
use gq_scenario::scenario::Scenario;
use gq_scenario::scenario_fault::ScenarioError;
use gq_sizes::leasts::{Leasts, least_quantities};
use gq_sizes::sized::is_sized;
use std::alloc::{AllocError, Global};

/// The scenario of a text that was made.
pub(crate) fn read_again(alloc: Global, text: &[u8]) -> Result<Scenario, MakeError>
    ensures read { IfOk result (λ s. scenario_in text.now ≡ Ok s) }
    ensures due { IfErr result (λ e. IsDueError e []) }
{
    match read_scenario(alloc, text) {
        Ok(scenario) => Ok(scenario),
        Err(ScenarioError::Memory(_)) => Err(MakeError::Memory),
        Err(ScenarioError::Fault(fault)) => {
            Err(MakeError::Misfit(Misfit::Refused(LoadFault::Scenario(fault))))
        }
    }
}

/// What was made is refused.
pub(crate) fn refused(error: LoadError) -> MakeError
    ensures { IsDueError result [] }
{
    match error {
        LoadError::Memory => MakeError::Memory,
        LoadError::Fault(fault) => MakeError::Misfit(Misfit::Refused(fault)),
    }
}

/// Fails where a scenario is not another with the least quantities.
pub(crate) fn check_sized(
    alloc: Global,
    made: &Scenario,
    scenario: &Scenario,
) -> Result<(), MakeError>
    ensures sized { OnOk result (made.now ≡ sized scenario.now) }
    ensures due { IfErr result (λ e. IsDueError e []) }
{
    match is_sized(alloc, made, scenario) {
        Ok(true) => Ok(()),
        Ok(false) => Err(MakeError::Misfit(Misfit::Differs)),
        Err(error) => Err(refused(error)),
    }
}

/// The scenario of a text that was made, which is accepted.
pub(crate) fn loaded_again(alloc: Global, text: &[u8]) -> Result<Scenario, MakeError>
    ensures loaded { IfOk result (λ s. loaded text.now ≡ Ok s) }
    ensures due { IfErr result (λ e. IsDueError e []) }
{
    let made = read_again(alloc, text)?;
    match scenario_lines(alloc, &made) {
        Ok(_) => Ok(made),
        Err(error) => Err(refused(error)),
    }
}

/// Fails where a text has another scenario than this one with its least quantities, or where those of the new one are others.
fn check_made(alloc: Global, text: &[u8], scenario: &Scenario) -> Result<(), MakeError>
    ensures loaded { OnOk result (loaded text.now ≡ Ok (sized scenario.now)) }
    ensures least { OnOk result (sized (sized scenario.now) ≡ sized scenario.now) }
    ensures due { IfErr result (λ e. IsDueError e []) }
{
    let made = loaded_again(alloc, text)?;
    check_sized(alloc, &made, scenario)?;
    check_sized(alloc, &made, &made)
}

/// A text with these edits, in whatever order.
pub(crate) fn edited_in_order(
    alloc: Global,
    with_gifts: bool,
    text: &[u8],
    mut edits: Vec<Edit>,
) -> Result<Vec<u8>, MakeError>
    ensures layout { IfOk result (λ made. DiffersInValues with_gifts text.now made.items) }
    ensures due { IfErr result (λ e. IsDueError e []) }
{
    edits.sort_by_key(|edit| edit.at)?;
    edited(alloc, with_gifts, text, edits.as_slice())
}

/// The text with the least quantities of a scenario in place of its own.
fn made_text(
    alloc: Global,
    text: &[u8],
    scenario: &Scenario,
    leasts: &Leasts,
) -> Result<Vec<u8>, MakeError>
    ensures layout { IfOk result (λ made. DiffersInValues false text.now made.items) }
    ensures due { IfErr result (λ e. IsDueError e (quantities_by scenario.now leasts.now.interfaces.items leasts.now.nodes.items)) }
{
    let Ok(utf8) = str::from_utf8(text) else {
        return Err(MakeError::Misfit(Misfit::Differs));
    };
    let edits = with_quantities(alloc, Vec::new(alloc), utf8, scenario, leasts)?;
    edited_in_order(alloc, false, text, edits)
}

/// Fails where an `open` is short.
fn check_shorts(alloc: Global, leasts: &Leasts) -> Result<(), FitFault>
    ensures none { OnOk result (leasts.now.shorts.items ≡ []) }
    ensures short { IfErr result (λ f. IsShort f leasts.now.shorts.items) }
{
    if leasts.shorts.is_empty() {
        return Ok(());
    }
    let lines = Vec::from_slice(alloc, leasts.shorts.as_slice())?;
    Err(FitFault::Short(lines))
}

/// The text of a scenario with these least quantities in place of its own, which was read again.
fn fitted_by(
    alloc: Global,
    text: &[u8],
    scenario: &Scenario,
    leasts: &Leasts,
) -> Result<Vec<u8>, MakeError>
    ensures fits { IfOk result (λ made. loaded made.items ≡ Ok (sized scenario.now)) }
    ensures least { IfOk result (λ made. sized (sized scenario.now) ≡ sized scenario.now) }
    ensures layout { IfOk result (λ made. DiffersInValues false text.now made.items) }
    ensures due { IfErr result (λ e. IsDueError e (quantities_by scenario.now leasts.now.interfaces.items leasts.now.nodes.items)) }
{
    let made = made_text(alloc, text, scenario, leasts)?;
    check_made(alloc, made.as_slice(), scenario)?;
    Ok(made)
}

/// Whether a text is accepted with this scenario, which is read from it.
#[tactic(auto, using(crate::proofs::Made_again::faultless_is))]
fn is_accepted(alloc: Global, text: &[u8], scenario: &Scenario) -> Result<bool, AllocError>
    requires { scenario_in text.now ≡ Ok scenario.now }
    ensures accepted { IfOk result (λ b. IsTrue b → loaded text.now ≡ Ok scenario.now) }
    ensures only { IfOk result (λ b. loaded text.now ≡ Ok scenario.now → IsTrue b) }
{
    match scenario_lines(alloc, scenario) {
        Ok(_) => Ok(true),
        Err(LoadError::Memory) => Err(AllocError),
        Err(LoadError::Fault(_)) => Ok(false),
    }
}

/// Whether a scenario that breaks no rule which quantities do not decide has its least quantities.
fn is_least(alloc: Global, scenario: &Scenario) -> Result<bool, AllocError>
    requires { fault_without scenario.now ≡ None }
    ensures sized { IfOk result (λ b. IsTrue b → IsSized scenario.now scenario.now) }
    ensures only { IfOk result (λ b. IsSized scenario.now scenario.now → IsTrue b) }
{
    match is_sized(alloc, scenario, scenario) {
        Ok(sized) => Ok(sized),
        Err(LoadError::Memory) => Err(AllocError),
        Err(LoadError::Fault(_)) => Ok(false),
    }
}

/// Whether a text is accepted as it is, and has the least quantities of its scenario.
pub(crate) fn is_own_fit(
    alloc: Global,
    text: &[u8],
    scenario: &Scenario,
) -> Result<bool, AllocError>
    requires read { scenario_in text.now ≡ Ok scenario.now }
    requires faultless { fault_without scenario.now ≡ None }
    ensures fits { IfOk result (λ b. IsTrue b → IsOwnFit text.now scenario.now) }
    ensures only { IfOk result (λ b. IsOwnFit text.now scenario.now → IsTrue b) }
{
    if !is_accepted(alloc, text, scenario)? {
        return Ok(false);
    }
    is_least(alloc, scenario)
}

/// The text of a scenario without a short `open`, with these least quantities in place of its own.
fn fitted_least(
    alloc: Global,
    text: &[u8],
    scenario: &Scenario,
    leasts: &Leasts,
) -> Result<Vec<u8>, FitFault>
    requires read { scenario_in text.now ≡ Ok scenario.now }
    requires faultless { fault_without scenario.now ≡ None }
    requires none_short { NoneShort scenario.now }
    requires interfaces { leasts.now.interfaces.items ≡ interfaces_least scenario.now }
    requires nodes { leasts.now.nodes.items ≡ nodes_least scenario.now }
    ensures fitted { IfOk result (λ made. IsFitted text.now made.items) }
    ensures refused { IfErr result (λ f. IsReason f text.now) }
    ensures early { IfErr result (λ f. IsBefore f) }
{
    if is_own_fit(alloc, text, scenario)? {
        return Ok(Vec::from_slice(alloc, text)?);
    }
    Ok(fitted_by(alloc, text, scenario, leasts)?)
}

/// The text of a scenario with the least quantities in place of its own.
fn fitted_scenario(alloc: Global, text: &[u8], scenario: &Scenario) -> Result<Vec<u8>, FitFault>
    requires { scenario_in text.now ≡ Ok scenario.now }
    ensures fitted { IfOk result (λ made. IsFitted text.now made.items) }
    ensures refused { IfErr result (λ f. IsReason f text.now) }
    ensures early { IfErr result (λ f. IsBefore f) }
{
    let leasts = least_quantities(alloc, scenario)?;
    check_shorts(alloc, &leasts)?;
    fitted_least(alloc, text, scenario, &leasts)
}

/// The scenario of a text, or the fault that refuses it.
pub(crate) fn read_first(alloc: Global, text: &[u8]) -> Result<Scenario, FitFault>
    ensures read { IfOk result (λ s. scenario_in text.now ≡ Ok s) }
    ensures refused { IfErr result (λ f. IsRefusedBy f (judged_without text.now)) }
{
    match read_scenario(alloc, text) {
        Ok(scenario) => Ok(scenario),
        Err(ScenarioError::Memory(_)) => Err(FitFault::Memory),
        Err(ScenarioError::Fault(fault)) => Err(FitFault::Load(LoadFault::Scenario(fault))),
    }
}

/// A text with the least quantities of its scenario in place of its own, which was read again.
pub(crate) fn fitted_text(alloc: Global, text: &[u8]) -> Result<Vec<u8>, FitFault>
    ensures fitted { IfOk result (λ made. IsFitted text.now made.items) }
    ensures refused { IfErr result (λ f. IsReason f text.now) }
    ensures early { IfErr result (λ f. IsBefore f) }
{
    let scenario = read_first(alloc, text)?;
    let made = fitted_scenario(alloc, text, &scenario);
    drop(scenario);
    made
}
