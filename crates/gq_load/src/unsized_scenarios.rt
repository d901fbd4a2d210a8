// Scenarios whose quantities are not judged.
ghost use Rattle.std.specs.Prelude.{◌≡◌, None, IfOk, IfErr, map};
ghost use Rattle.gq_model.specs.machine.Scenario as model;
ghost use Rattle.gq_model.specs.rules.Accept as accept;
ghost use Rattle.gq_model.specs.rules.Verdict.{program_fault};
ghost use Rattle.gq_resolve.specs.Served.{AreServers};
ghost use Rattle.gq_verify.specs.Subjects.{subject_of};
ghost use Rattle.gq_load.specs.Load_faults.{PrintsFault};
ghost use Rattle.gq_load.specs.Load.{refused};
ghost use Rattle.gq_load.specs.Unsized_judgement.{unsized_fault, unsized_refusal};
ghost use Rattle.gq_load.specs.internal.Judged_programs.{programs_of, first_refusal};
ghost use Rattle.gq_load.specs.internal.Surveys.{AreSurveys};

use crate::accepted::kept_budgets;
use crate::budget::Budget;
use crate::leaf_programs::read_programs;
use crate::load_fault::LoadError;
use crate::over::{Limit, check_over};
use crate::surveys::{Surveys, survey_programs};
use gq_program::Interfaces;
use gq_program::program_tree::Program;
use gq_resolve::component::Component;
use gq_resolve::resolve_opened;
use gq_resolve::routes::Routes;
use gq_scenario::scenario::Scenario;
use gq_verify::{Verified, verify};
use std::alloc::Global;

/// What is found of a scenario whose quantities are not judged: the programs of its leaves, what is kept of each, who serves whom, and what each leaf uses at
/// most.
#[derive(Drop)]
pub struct Unsized {
    pub programs: Vec<Program>,
    pub surveys: Surveys,
    pub routes: Routes,
    pub budgets: Vec<Budget>,
}

// The routes and the budgets of a scenario whose programs break no rule, or the first reason to refuse it that no quantity decides.
fn judge_steps(
    alloc: Global,
    scenario: &Scenario,
    components: &[Component<'_>],
    surveys: &Surveys,
) -> Result<(Routes, Vec<Budget>), LoadError>
    requires components { components.now ≡ model.components scenario.now }
    requires surveys { AreSurveys scenario.now.interfaces components.now surveys.now.owns.items surveys.now.counted.items
        (map (λ v. v.items) surveys.now.opened.items) }
    requires right { first_refusal scenario.now.interfaces components.now ≡ None }
    ensures servers { IfOk result (λ found. AreServers scenario.now found.0) }
    ensures budgets { IfOk result (λ found. found.1.items ≡ accept.budgets scenario.now) }
    ensures accepted { IfOk result (λ found. unsized_refusal scenario.now ≡ None) }
    ensures refused { IfErr result (λ e. PrintsFault e (refused (unsized_refusal scenario.now))) }
{
    let routes = resolve_opened(alloc, scenario, components, surveys.opened.as_slice())?;
    let budgets = kept_budgets(alloc, scenario, components, &routes, surveys)?;
    check_over(Limit::Steps, components, budgets.as_slice())?;
    Ok((routes, budgets))
}

/// What is found of a scenario whose leaves these are, and whose quantities are not judged; or the first reason to refuse it. The text or the code of a leaf's
/// program is none, a program breaks a rule, the scenario is not resolved, or a leaf may take more than 10^12 steps.
pub fn judge_unsized(
    alloc: Global,
    scenario: &Scenario,
    components: &[Component<'_>],
) -> Result<Unsized, LoadError>
    requires { components.now ≡ model.components scenario.now }
    ensures programs { IfOk result (λ found. found.programs.items ≡ programs_of components.now) }
    ensures surveys { IfOk result (λ found. AreSurveys scenario.now.interfaces components.now found.surveys.owns.items found.surveys.counted.items
        (map (λ v. v.items) found.surveys.opened.items)) }
    ensures servers { IfOk result (λ found. AreServers scenario.now found.routes) }
    ensures budgets { IfOk result (λ found. found.budgets.items ≡ accept.budgets scenario.now) }
    ensures faultless { IfOk result (λ found. unsized_fault scenario.now ≡ None) }
    ensures refused { IfErr result (λ e. PrintsFault e (unsized_fault scenario.now)) }
{
    let programs = read_programs(alloc, components)?;
    let surveys = survey_programs(
        alloc,
        components,
        programs.as_slice(),
        scenario.interfaces(),
    )?;
    let (routes, budgets) = judge_steps(alloc, scenario, components, &surveys)?;
    Ok(Unsized {
        programs,
        surveys,
        routes,
        budgets,
    })
}

/// Verifies a program again that breaks no rule, and returns what the verifier has of it.
pub fn verified<'a>(
    component: &Component<'a>,
    program: &'a Program,
    interfaces: &'a Interfaces,
) -> Verified<'a>
    requires { program_fault (subject_of program.now component.now.node.provides interfaces.now component.now.node.inputs component.now.node.signals) ≡ None }
    ensures { result ≡ subject_of program.now component.now.node.provides interfaces.now component.now.node.inputs component.now.node.signals }
{
    let leaf = component.leaf();
    match verify(
        program,
        leaf.provides(),
        interfaces,
        leaf.inputs(),
        leaf.signals(),
    ) {
        Ok(verified) => verified,
        Err(_) => unreachable!(),
    }
}
