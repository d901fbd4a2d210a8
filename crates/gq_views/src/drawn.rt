// An accepted scenario with all that is reported of it: its leaves, the services that each opens, and what each uses at most.
ghost use Rattle.std.specs.Prelude.{◌≡◌, ◌<◌, ◌≤◌, ◌^◌, [], IfOk, length, map, option_map, slice_get};
ghost use Rattle.gq_model.specs.machine.Routes as routes;
ghost use Rattle.gq_model.specs.machine.Scenario as model;
ghost use Rattle.gq_model.specs.machine.Scenario.{system};
ghost use Rattle.gq_model.specs.rules.Accept as accept;
ghost use Rattle.gq_model.specs.rules.Use.{services_in};
ghost use Rattle.gq_laws.specs.Ready.{IsReady};
ghost use Rattle.gq_views.specs.internal.Opened_services.{IsDrawn, opened_at, opened_by, opened_by_all, opened_by_table, started_after};
ghost use Rattle.gq_views.specs.internal.Table_leaves.{leaf_of};
ghost use Rattle.gq_views.specs.Tree.{first_of_each, server_label};
ghost use Rattle.gq_scenario.specs.Component_trees.{version_number};

use crate::table_leaf::TableLeaf;
use gq_load::budget::Budget;
use gq_model::program::Name;
use gq_program::program_tree::Program;
use gq_resolve::NodeTable;
use gq_resolve::opened_services::{once, opened};
use gq_scenario::component_tree::copied;
use gq_scenario::scenario::{LeafNo, Scenario, Version};
use std::alloc::{AllocError, Global};
use std::marker::Model;

// A service that a leaf opens, with the leaf that serves it.
pub(crate) type Opened = (Name, Option<LeafNo>);

// The services that a program opens, each once, in the order of the text.
fn services_of(alloc: Global, program: &Program) -> Result<Vec<Name>, AllocError>
    ensures { IfOk result (λ s. s.items ≡ first_of_each [] (services_in program.now.sections)) }
{
    let all = opened(alloc, program)?;
    let each = once(alloc, all.as_slice());
    drop(all);
    each
}

// These services of a leaf, each with the leaf that serves it.
fn with_servers(
    alloc: Global,
    client: &TableLeaf<'_>,
    services: &[Name],
) -> Result<Vec<Opened>, AllocError>
    ensures { IfOk result (λ l. l.items ≡ opened_by_table client.now services.now) }
{
    let mut all = Vec::new(alloc);
    for service in services {
        all.push((copied(service), client.server(service)))?;
    }
    Ok(all)
}

// The services that a leaf opens, each once, with the leaf that serves it.
fn leaf_opened(alloc: Global, client: &TableLeaf<'_>) -> Result<Vec<Opened>, AllocError>
    ensures { IfOk result (λ l. l.items ≡ opened_by client.now.all client.now.component) }
{
    let services = services_of(alloc, client.program())?;
    let opened = with_servers(alloc, client, services.as_slice());
    drop(services);
    opened
}

// Those of all leaves.
fn all_opened(alloc: Global, table: &NodeTable) -> Result<Vec<Vec<Opened>>, AllocError>
    requires { IsReady table.now }
    ensures { IfOk result (λ l. map (λ v. v.items) l.items ≡ opened_by_all (model.components table.now) (model.components table.now)) }
{
    let mut all = Vec::new(alloc);
    for number in 0..table.leaf_count() {
        let client = TableLeaf::new(table, LeafNo::new(number as u32));
        all.push(leaf_opened(alloc, &client)?)?;
    }
    Ok(all)
}

// What is reported of an accepted scenario.
#[derive(Drop)]
pub(crate) struct Drawn<'a> {
    table: &'a NodeTable,
    opened: Vec<Vec<Opened>>,
    budgets: &'a [Budget],
}

impl<'a> Model for Drawn<'a> {
    ghost use Rattle.std.specs.Prelude.{map};
    ghost use Rattle.std.specs.Coded.{codes};
    ghost use Rattle.gq_model.specs.machine.Scenario.{Scenario};
    ghost use Rattle.gq_model.specs.internal.Stored.{statements_code, nodes_code};
    ghost use Rattle.gq_views.specs.internal.Opened_services.{IsDrawn};

    ghost Value = { Scenario };

    ghost coded = { Prim.hlevel (codes, nodes_code (Prim.hlevel (codes, statements_code (Prim.hlevel codes))) (Prim.hlevel codes)) };

    ghost view = { λ d. d.table.now };

    ghost invariant = { λ d. IsDrawn d.table.now (map (λ v. v.items) d.opened.items) d.budgets.now };
}

impl<'a> Drawn<'a> {
    // What is reported of the scenario of a table, whose leaves have these budgets.
    pub(crate) fn of(
        alloc: Global,
        table: &'a NodeTable,
        budgets: &'a [Budget],
    ) -> Result<Drawn<'a>, AllocError>
        requires ready { IsReady table.now }
        requires budgets { budgets.now ≡ accept.budgets table.now }
        ensures { IfOk result (λ d. d ≡ table.now) }
    {
        let opened = all_opened(alloc, table)?;
        Ok(Drawn {
            table,
            opened,
            budgets,
        })
    }

    // The scenario.
    pub(crate) fn scenario(&self) -> &Scenario
        ensures { result.now ≡ self.now }
    {
        self.table.scenario()
    }

    // Its version.
    pub(crate) fn version(&self) -> Version
        ensures { version_number result ≡ self.now.version }
    {
        self.table.scenario().version()
    }

    // The number of its leaves.
    pub(crate) fn leaf_count(&self) -> usize
        ensures count { result ≡ length (model.components self.now) }
        ensures few { result ≤ 64 }
    {
        self.table.leaf_count()
    }

    // The label of a server, if there is one.
    pub(crate) fn label(&self, server: Option<LeafNo>) -> &[u8]
        ensures { result.now ≡ server_label (system self.now) server }
    {
        match server {
            Some(leaf) => {
                if leaf.index() < self.table.leaf_count() {
                    self.table.label(self.table.node(leaf))
                } else {
                    &[]
                }
            }
            None => &[],
        }
    }

    // The services that the leaf at this place opens, each with the leaf that serves it.
    pub(crate) fn opened(&self, place: usize) -> &[Opened]
        ensures { result.now ≡ opened_at self.now place }
    {
        match self.opened.get(place) {
            Some(opened) => opened.as_slice(),
            None => &[],
        }
    }

    // What the leaf at this place uses at most.
    pub(crate) fn budget(&self, place: usize) -> Option<&Budget>
        ensures { option_map (λ b. b.now) result ≡ slice_get (accept.budgets self.now) place }
    {
        self.budgets.get(place)
    }

    // The leaf that the leaf at this place starts after.
    pub(crate) fn after(&self, place: usize) -> Option<LeafNo>
        requires { place < length (model.components self.now) }
        ensures { result ≡ started_after self.now (slice_get (model.components self.now) place) }
    {
        let _leaves = self.table.leaf_count();
        self.table.after(LeafNo::new(place as u32))
    }
}
