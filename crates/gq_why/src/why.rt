// What a leaf's numbers are made of, and where.
ghost use Rattle.std.specs.Prelude.{◌≡◌, ◌<◌, None, Ok, IfErr, IfOk, length, map};
ghost use Rattle.gq_model.specs.machine.Scenario as model;
ghost use Rattle.gq_model.specs.rules.Accept as accept;
ghost use Rattle.gq_resolve.specs.Served.{AreServers};
ghost use Rattle.gq_scenario.specs.Without_quantities.{unsized};
ghost use Rattle.gq_load.specs.Load_faults.{PrintsFault};
ghost use Rattle.gq_load.specs.Unsized_judgement.{unsized_fault};
ghost use Rattle.gq_load.specs.internal.Surveys.{AreSurveys};
ghost use Rattle.gq_reports.specs.Command_outcomes.{IsBefore, IsFaultOf, WritesAs};
ghost use Rattle.gq_why.specs.Why.{why_text};
ghost use Rattle.gq_why.specs.Why_written.{leaf_number, why_from, why_of, why_written};

use crate::need::push_needs;
use crate::own_lines::push_owns;
use crate::step_sums::push_steps;
use gq_load::load_fault::{LoadError, LoadFault};
use gq_load::unsized_scenarios::{Unsized, judge_unsized, verified};
use gq_model::spelling::same_text;
use gq_output::counted::Counted;
use gq_reader::reader::read_scenario;
use gq_reports::RunFault;
use gq_reports::command_text::put_text;
use gq_resolve::component::{Component, components};
use gq_scenario::scenario::{LeafNo, Scenario};
use gq_scenario::scenario_fault::ScenarioError;
use gq_scenario::without_quantities::without_quantities;
use std::alloc::{AllocError, Global};
use std::io::Write;

/// The number of the leaf of this name.
fn numbered(scenario: &Scenario, name: &[u8]) -> Option<LeafNo>
    ensures { result ≡ leaf_number name.now 0 (model.components scenario.now) }
{
    for place in 0..scenario.leaf_count() {
        let leaf = LeafNo::new(place as u32);
        if same_text(name, scenario.leaf(leaf).name().as_bytes()) {
            return Some(leaf);
        }
    }
    None
}

/// The text of a leaf of a scenario, of which this is found without its quantities.
fn text_of(
    alloc: Global,
    scenario: &Scenario,
    free: &Scenario,
    components: &[Component<'_>],
    found: &Unsized,
    leaf: LeafNo,
) -> Result<Vec<u8>, AllocError>
    requires free { free.now ≡ unsized scenario.now }
    requires components { components.now ≡ model.components free.now }
    requires programs { found.now.programs.items ≡ map (λ c. c.node.program) components.now }
    requires surveys { AreSurveys free.now.interfaces components.now found.now.surveys.owns.items found.now.surveys.counted.items
        (map (λ v. v.items) found.now.surveys.opened.items) }
    requires servers { AreServers free.now found.now.routes }
    requires budgets { found.now.budgets.items ≡ accept.budgets free.now }
    requires faultless { unsized_fault free.now ≡ None }
    requires there { leaf < length (model.components scenario.now) }
    ensures { IfOk result (λ text. text.items ≡ why_text scenario.now leaf) }
{
    let programs = found.programs.as_slice();
    let component = &components[leaf.index()];
    let program = &programs[leaf.index()];
    let verified = verified(component, program, free.interfaces());
    let quantum = scenario.leaf(leaf).quantum();
    let mut text = Vec::new(alloc);
    push_owns(&mut text, scenario.version(), &verified, quantum)?;
    push_needs(&mut text, scenario, &verified, component)?;
    push_steps(alloc, &mut text, free, components, found, leaf)?;
    Ok(text)
}

/// The text of a leaf of a scenario.
fn leaf_text(alloc: Global, scenario: &Scenario, leaf: LeafNo) -> Result<Vec<u8>, LoadError>
    requires { leaf < length (model.components scenario.now) }
    ensures text { IfOk result (λ text. text.items ≡ why_text scenario.now leaf) }
    ensures faultless { IfOk result (λ text. unsized_fault (unsized scenario.now) ≡ None) }
    ensures refused { IfErr result (λ e. PrintsFault e (unsized_fault (unsized scenario.now))) }
{
    let free = without_quantities(alloc, scenario)?;
    let components = components(alloc, &free)?;
    let found = judge_unsized(alloc, &free, components.as_slice())?;
    Ok(text_of(alloc, scenario, &free, components.as_slice(), &found, leaf)?)
}

/// The text of the leaf of this name.
fn named_text<'a>(
    alloc: Global,
    scenario: &Scenario,
    name: &'a str,
) -> Result<Vec<u8>, RunFault<'a>>
    ensures text { IfOk result (λ text. why_from (Ok scenario.now) name.now ≡ Ok text.items) }
    ensures refused { IfErr result (λ f. IsFaultOf f (why_from (Ok scenario.now) name.now)) }
    ensures before { IfErr result (λ f. IsBefore f) }
{
    let Some(leaf) = numbered(scenario, name.as_bytes()) else {
        return Err(RunFault::NoComponent(name));
    };
    Ok(leaf_text(alloc, scenario, leaf)?)
}

/// Writes what the numbers of a leaf are made of, in bytes, capabilities where they are counted, and steps.
///
/// - What it uses of its own account, what a session of each level needs, and its steps, for the start and for each signal for which it takes some.
/// - Of each the point at which it is greatest, what is held there, and who asks how often.
///
/// It does so for every scenario that passes the rules that quantities do not decide. Another is refused by the first of them, in the words of `check`. If it
/// is refused, if no leaf has the name, or if the host refuses memory, nothing is written. After a failed write a prefix of the text was written.
pub fn why<'a, W: Write>(
    alloc: Global,
    scenario: &[u8],
    name: &'a str,
    out: &mut Counted<W>,
) -> Result<(), RunFault<'a>>
    ensures { WritesAs W.contents (why_written scenario.now name.now) out.old out.new result }
{
    let scenario = match read_scenario(alloc, scenario) {
        Ok(scenario) => scenario,
        Err(ScenarioError::Memory(_)) => return Err(RunFault::Memory),
        Err(ScenarioError::Fault(fault)) => return Err(RunFault::Load(LoadFault::Scenario(fault))),
    };
    let text = named_text(alloc, &scenario, name);
    drop(scenario);
    let text = text?;
    put_text(out, text.as_slice())
}
