// Scenarios that the verifier accepts.
ghost use Rattle.std.specs.Prelude.{◌≡◌, None, Ok, length, map, IfOk, IfErr, OnOk};
ghost use Rattle.gq_model.specs.machine.Scenario as model;
ghost use Rattle.gq_model.specs.machine.Scenario.{system};
ghost use Rattle.gq_model.specs.rules.Accept as accept;
ghost use Rattle.gq_model.specs.rules.Accept.{IsAccepted, refusal};
ghost use Rattle.gq_resolve.specs.NodeTables.{all_rows};
ghost use Rattle.gq_resolve.specs.Served.{AreServers};
ghost use Rattle.gq_load.specs.internal.Accepted.{AreOfAccepted};
ghost use Rattle.gq_load.specs.internal.Saturated_budgets.{kept_from, budget_refusal};
ghost use Rattle.gq_load.specs.Load_faults.{PrintsFault, Prints, Refuses};
ghost use Rattle.gq_load.specs.internal.Judged_programs.{programs_of, first_refusal};
ghost use Rattle.gq_load.specs.internal.Surveys.{AreSurveys};
ghost use Rattle.gq_load.specs.Load.{loaded, scenario_fault, refused};

use crate::budget::{Budget, budgets_of};
use crate::leaf_programs::read_programs;
use crate::load_fault::{LoadError, LoadFault};
use crate::over::{Limit, check_over};
use crate::surveys::{Surveys, survey_programs};
use gq_budget::steps_of;
use gq_program::program_tree::Program;
use gq_reader::reader::read_scenario;
use gq_resolve::component::{Component, components};
use gq_resolve::node_table::Entries;
use gq_resolve::routes::Routes;
use gq_resolve::{NodeTable, resolve_opened};
use gq_scenario::scenario::Scenario;
use gq_scenario::scenario_fault::ScenarioError;
use std::alloc::{AllocError, Global};
use std::marker::Model;

/// A scenario that the verifier accepts, as a table of its nodes, with the budgets of its leaves.
#[derive(Drop)]
pub struct Accepted {
    table: NodeTable,
    budgets: Vec<Budget>,
}

impl Model for Accepted {
    ghost use Rattle.std.specs.Coded.{codes};
    ghost use Rattle.gq_model.specs.machine.Scenario.{Scenario};
    ghost use Rattle.gq_model.specs.internal.Stored.{statements_code, nodes_code};
    ghost use Rattle.gq_load.specs.internal.Accepted.{AreOfAccepted};

    ghost Value = { Scenario };

    ghost coded = { Prim.hlevel (codes, nodes_code (Prim.hlevel (codes, statements_code (Prim.hlevel codes))) (Prim.hlevel codes)) };

    ghost view = { λ a. a.table };

    ghost invariant = { λ a. AreOfAccepted a.table a.budgets.items };
}

/// The budgets of a scenario's leaves, which have these routes, with steps of at most the greatest number of 64 bits.
pub fn kept_budgets(
    alloc: Global,
    scenario: &Scenario,
    components: &[Component<'_>],
    routes: &Routes,
    surveys: &Surveys,
) -> Result<Vec<Budget>, AllocError>
    requires components { components.now ≡ model.components scenario.now }
    requires routes { AreServers scenario.now routes.now }
    requires surveys { AreSurveys scenario.now.interfaces components.now surveys.now.owns.items surveys.now.counted.items
        (map (λ v. v.items) surveys.now.opened.items) }
    ensures { IfOk result (λ b. b.items ≡ kept_from scenario.now.version (system scenario.now) 0 components.now) }
{
    let steps = steps_of(
        alloc,
        scenario,
        components,
        routes,
        surveys.counted.as_slice(),
    )?;
    let budgets = budgets_of(alloc, scenario.version(), surveys.owns.as_slice(), steps)?;
    Ok(budgets)
}

// Refuses the first leaf that uses more bytes than it is given; then the first that may take too many steps; then the first that uses
// more capabilities than it is given.
fn check_budgets(components: &[Component<'_>], budgets: &[Budget]) -> Result<(), LoadFault>
    requires { length budgets.now ≡ length components.now }
    ensures none { OnOk result (budget_refusal components.now budgets.now ≡ None) }
    ensures refused { IfErr result (λ f. Prints f (refused (budget_refusal components.now budgets.now))) }
{
    check_over(Limit::Ram, components, budgets)?;
    check_over(Limit::Steps, components, budgets)?;
    check_over(Limit::Caps, components, budgets)
}

// The routes and the budgets of a scenario whose programs break no rule, or the first reason to refuse it.
pub(crate) fn judge(
    alloc: Global,
    scenario: &Scenario,
    components: &[Component<'_>],
    surveys: &Surveys,
) -> Result<(Routes, Vec<Budget>), LoadError>
    requires components { components.now ≡ model.components scenario.now }
    requires surveys { AreSurveys scenario.now.interfaces components.now surveys.now.owns.items surveys.now.counted.items
        (map (λ v. v.items) surveys.now.opened.items) }
    requires right { first_refusal scenario.now.interfaces components.now ≡ None }
    ensures servers { IfOk result (λ found. AreServers scenario.now found.0) }
    ensures budgets { IfOk result (λ found. found.1.items ≡ accept.budgets scenario.now) }
    ensures accepted { IfOk result (λ found. refusal scenario.now ≡ None) }
    ensures refused { IfErr result (λ e. PrintsFault e (refused (refusal scenario.now))) }
{
    let routes = resolve_opened(alloc, scenario, components, surveys.opened.as_slice())?;
    let budgets = kept_budgets(alloc, scenario, components, &routes, surveys)?;
    check_budgets(components, budgets.as_slice())?;
    Ok((routes, budgets))
}

// What there is of a scenario that is accepted.
#[derive(Drop)]
struct Judged {
    programs: Vec<Program>,
    entries: Entries,
    budgets: Vec<Budget>,
}

// The programs, the nodes and the budgets of a scenario, or its first fault.
fn judge_scenario(alloc: Global, scenario: &Scenario) -> Result<Judged, LoadError>
    ensures programs { IfOk result (λ found. found.programs.items ≡ programs_of (model.components scenario.now)) }
    ensures entries { IfOk result (λ found. found.entries ≡ all_rows scenario.now) }
    ensures accepted { IfOk result (λ found. AreOfAccepted scenario.now found.budgets.items) }
    ensures faultless { IfOk result (λ found. scenario_fault scenario.now ≡ None) }
    ensures refused { IfErr result (λ e. PrintsFault e (scenario_fault scenario.now)) }
{
    let components = components(alloc, scenario)?;
    let programs = read_programs(alloc, components.as_slice())?;
    let surveys = survey_programs(
        alloc,
        components.as_slice(),
        programs.as_slice(),
        scenario.interfaces(),
    )?;
    let (routes, budgets) = judge(alloc, scenario, components.as_slice(), &surveys)?;
    let entries = Entries::of(alloc, scenario, components.as_slice(), &routes)?;
    Ok(Judged {
        programs,
        entries,
        budgets,
    })
}

// A scenario with its table and its budgets, or its first fault.
fn accept(alloc: Global, scenario: Scenario) -> Result<Accepted, LoadError>
    ensures scenario { IfOk result (λ a. a ≡ scenario) }
    ensures faultless { IfOk result (λ a. scenario_fault scenario ≡ None) }
    ensures refused { IfErr result (λ e. PrintsFault e (scenario_fault scenario)) }
{
    let judged = judge_scenario(alloc, &scenario)?;
    Ok(Accepted {
        table: NodeTable::new(scenario, judged.programs, judged.entries),
        budgets: judged.budgets,
    })
}

impl Accepted {
    /// The scenario of a text in TOML, of either version, where the verifier accepts it.
    ///
    /// Refuses if the host has no memory left, and by the first fault, in this order.
    ///
    /// - The text is no scenario.
    /// - The text or the code of a leaf's program is no program, leaves in preorder.
    /// - A leaf's program breaks a rule.
    /// - The scenario is not resolved.
    /// - A leaf uses more bytes of its own account than its quantum has, may take more than 10^12 steps, or uses more capabilities than it is given.
    pub fn read(alloc: Global, text: &[u8]) -> Result<Accepted, LoadError>
        ensures loaded { IfOk result (λ a. loaded text.now ≡ Ok a) }
        ensures refused { IfErr result (λ e. Refuses e (loaded text.now)) }
    {
        match read_scenario(alloc, text) {
            Ok(scenario) => accept(alloc, scenario),
            Err(ScenarioError::Memory(_)) => Err(LoadError::Memory),
            Err(ScenarioError::Fault(fault)) => Err(LoadError::Fault(LoadFault::Scenario(fault))),
        }
    }

    /// What every such scenario is: the verifier accepts it. It does nothing.
    pub fn laws(&self)
        ensures { IsAccepted self.now }
    {
        let _table = &self.table;
    }

    /// Its nodes, and its leaves with their programs.
    pub fn table(&self) -> &NodeTable
        ensures { result.now ≡ self.now }
    {
        &self.table
    }

    /// What each leaf uses at most, in preorder.
    pub fn budgets(&self) -> &[Budget]
        ensures { result.now ≡ accept.budgets self.now }
    {
        self.budgets.as_slice()
    }

    /// The table and the budgets, given away.
    pub fn into_parts(self) -> (NodeTable, Vec<Budget>)
        ensures table { result.0 ≡ self }
        ensures budgets { result.1.items ≡ accept.budgets self }
    {
        (self.table, self.budgets)
    }
}
