// How much is enough.
ghost use Rattle.std.specs.Prelude.{◌≡◌, None, IfOk, IfErr, IsOkAnd, map};
ghost use Rattle.gq_model.specs.machine.Scenario as model;
ghost use Rattle.gq_model.specs.machine.Scenario.{system};
ghost use Rattle.gq_model.specs.rules.Accept as accept;
ghost use Rattle.gq_scenario.specs.Without_quantities.{unsized};
ghost use Rattle.gq_load.specs.Load_faults.{PrintsFault, Refuses};
ghost use Rattle.gq_load.specs.Unsized_judgement.{unsized_fault};
ghost use Rattle.gq_reports.specs.Command_outcomes.{WritesAs};
ghost use Rattle.gq_sizes.specs.Size.{all_gifts};
ghost use Rattle.gq_sizes.specs.Judged_scenario.{fault_without, judged_without};
ghost use Rattle.gq_sizes.specs.Size_text.{size_text};
ghost use Rattle.gq_sizes.specs.Passing.{endless_rows};
ghost use Rattle.gq_sizes.specs.Saturated_tables.{AreLeast, caps_rows, ram_rows};
ghost use Rattle.gq_sizes.specs.Size_written.{size_written};

use crate::interface_lines::{Sums, push_interfaces};
use crate::judged_scenario::read;
use crate::least_quantities::found_of;
use crate::node_lines::{Leaves, push_tree};
use crate::shorts::push_shorts;
use gq_load::load_fault::LoadError;
use gq_load::unsized_scenarios::{Unsized, judge_unsized};
use gq_output::counted::Counted;
use gq_program::program_tree::Program;
use gq_reports::RunFault;
use gq_reports::command_text::put_text;
use gq_resolve::component::{Component, components};
use gq_scenario::scenario::Scenario;
use gq_scenario::without_quantities::without_quantities;
use std::alloc::{AllocError, Global};
use std::io::Write;

/// The text of a scenario, of which all this is least.
fn pushed(
    alloc: Global,
    scenario: &Scenario,
    free: &Scenario,
    components: &[Component<'_>],
    programs: &[Program],
    sums: &Sums,
    leaves: &Leaves<'_>,
) -> Result<Vec<u8>, AllocError>
    requires free { free.now ≡ unsized scenario.now }
    requires components { components.now ≡ model.components free.now }
    requires programs { programs.now ≡ map (λ c. c.node.program) components.now }
    requires ram { sums.now.ram.items ≡ ram_rows (system free.now) (all_gifts (system free.now) components.now) free.now.interfaces }
    requires caps { sums.now.caps.items ≡ caps_rows (system free.now) free.now.interfaces }
    requires endless { sums.now.endless.items ≡ endless_rows (system free.now) free.now.interfaces }
    requires leaves { AreLeast (system free.now) leaves.now.least.now leaves.now.endless.now }
    ensures { IfOk result (λ text. text.items ≡ size_text scenario.now) }
{
    let mut text = Vec::new(alloc);
    push_interfaces(&mut text, scenario.version(), scenario.interfaces(), sums)?;
    push_shorts(&mut text, free.interfaces(), sums, components, programs)?;
    push_tree(alloc, &mut text, scenario, leaves)?;
    Ok(text)
}

/// The text of a scenario, of which this is found without its quantities.
fn text_of(
    alloc: Global,
    scenario: &Scenario,
    free: &Scenario,
    components: &[Component<'_>],
    found: &Unsized,
) -> Result<Vec<u8>, AllocError>
    requires free { free.now ≡ unsized scenario.now }
    requires components { components.now ≡ model.components free.now }
    requires programs { found.now.programs.items ≡ map (λ c. c.node.program) components.now }
    requires budgets { found.now.budgets.items ≡ accept.budgets free.now }
    requires faultless { unsized_fault free.now ≡ None }
    ensures { IfOk result (λ text. text.items ≡ size_text scenario.now) }
{
    let least = found_of(alloc, free, components, found)?;
    let leaves = Leaves {
        least: least.leaves.as_slice(),
        endless: least.endless.as_slice(),
    };
    let programs = found.programs.as_slice();
    pushed(
        alloc,
        scenario,
        free,
        components,
        programs,
        &least.sums,
        &leaves,
    )
}

/// The text of a scenario, by this one without its quantities; or the first fault of this one.
fn free_text(alloc: Global, scenario: &Scenario, free: &Scenario) -> Result<Vec<u8>, LoadError>
    requires { free.now ≡ unsized scenario.now }
    ensures text { IfOk result (λ text. text.items ≡ size_text scenario.now) }
    ensures faultless { IfOk result (λ text. unsized_fault free.now ≡ None) }
    ensures refused { IfErr result (λ e. PrintsFault e (unsized_fault free.now)) }
{
    let components = components(alloc, free)?;
    let found = judge_unsized(alloc, free, components.as_slice())?;
    Ok(text_of(alloc, scenario, free, components.as_slice(), &found)?)
}

/// The text of a scenario, or its first fault that no quantity decides.
fn scenario_text(alloc: Global, scenario: &Scenario) -> Result<Vec<u8>, LoadError>
    ensures text { IfOk result (λ text. text.items ≡ size_text scenario.now) }
    ensures faultless { IfOk result (λ text. fault_without scenario.now ≡ None) }
    ensures refused { IfErr result (λ e. PrintsFault e (fault_without scenario.now)) }
{
    let free = without_quantities(alloc, scenario)?;
    let text = free_text(alloc, scenario, &free);
    drop(free);
    text
}

/// The text of the scenario of a text.
fn judged_text(alloc: Global, text: &[u8]) -> Result<Vec<u8>, LoadError>
    ensures text { IfOk result (λ t. IsOkAnd (judged_without text.now) (λ s. t.items ≡ size_text s)) }
    ensures refused { IfErr result (λ e. Refuses e (judged_without text.now)) }
{
    let scenario = read(alloc, text)?;
    let text = scenario_text(alloc, &scenario);
    drop(scenario);
    text
}

/// Writes what each interface, leaf and init of a scenario has, and the least that it needs.
///
/// With the least quantities in place of its own the scenario is accepted, with two exceptions:
///
/// - An `open` gives less than a session of its interface needs. Each such statement has a line of its own.
/// - Sessions hold one another without end, so no number of capabilities is enough. `none` stands in place of such a number.
///
/// Bytes, and capabilities where the version counts them. A number above 2^64 - 1 is printed as 2^64 - 1.
///
/// A scenario that breaks a rule which quantities do not decide is refused by the first such rule, in the words of `check`; any other one has a text, accepted
/// or not. Nothing is written after a refusal or an allocation failure. After a failed write a prefix of the text is written.
pub fn size<W: Write>(
    alloc: Global,
    scenario: &[u8],
    out: &mut Counted<W>,
) -> Result<(), RunFault<'static>>
    ensures { WritesAs W.contents (size_written scenario.now) out.old out.new result }
{
    let text = judged_text(alloc, scenario)?;
    put_text(out, text.as_slice())
}
