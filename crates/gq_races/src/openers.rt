// Which leaves serve what a leaf opens.
ghost use Rattle.std.specs.Prelude.{◌≡◌, ◌≤◌, ◌++◌, ◌∷◌, [], OnOk, IfOk, length, map};
ghost use Rattle.gq_model.specs.machine.Lists.{any_of};
ghost use Rattle.gq_model.specs.machine.Scenario.{components};
ghost use Rattle.gq_model.specs.rules.Use as spec;
ghost use Rattle.gq_model.specs.rules.Use.{is_there};
ghost use Rattle.gq_resolve.specs.Served as served;
ghost use Rattle.gq_laws.specs.Ready.{IsReady};
ghost use Rattle.gq_views.specs.internal.Table_leaves.{served_by};
ghost use Rattle.gq_races.specs.internal.Openers.{first_servers, later_servers, opened_from};

use gq_model::program::Name;
use gq_model::section::Section;
use gq_program::program_tree::Body;
use gq_resolve::NodeTable;
use gq_resolve::opened_services::{once, push_opened};
use gq_scenario::scenario::LeafNo;
use gq_views::table_leaf::TableLeaf;
use std::alloc::{AllocError, Global};
use std::marker::Model;

// The leaves that serve what a leaf opens in `main`, and those that serve what it opens in other sections.
#[derive(Drop)]
pub(crate) struct OpenedFrom {
    first: Vec<Option<LeafNo>>,
    later: Vec<Option<LeafNo>>,
}

impl Model for OpenedFrom {
    ghost use Rattle.std.specs.Prelude.{ℕ, List, Option};

    ghost Value = { List (Option ℕ) × List (Option ℕ) };

    ghost view = { λ o. (o.first.items, o.later.items) };
}

// The services that a list of statements opens, each once.
fn services_of(alloc: Global, body: &Body) -> Result<Vec<Name>, AllocError>
    ensures { IfOk result (λ s. s.items ≡ served.once (spec.services_of body.now)) }
{
    let mut all = Vec::new(alloc);
    push_opened(&mut all, body)?;
    let each = once(alloc, all.as_slice());
    drop(all);
    each
}

// Puts the leaves that serve these services of a leaf at the end.
fn push_servers(
    servers: &mut Vec<Option<LeafNo>>,
    client: &TableLeaf<'_>,
    services: &[Name],
) -> Result<(), AllocError>
    ensures { OnOk result (servers.new.items ≡ servers.old.items ++ map (served_by client.now) services.now) }
{
    for service in services {
        servers.push(client.server(service))?;
    }
    Ok(())
}

impl OpenedFrom {
    // Puts the leaves that serve what a section opens at the end of those of `main`, or of those of other sections.
    fn push_section(
        &mut self,
        alloc: Global,
        client: &TableLeaf<'_>,
        section: Section,
        body: &Body,
    ) -> Result<(), AllocError>
        ensures first { OnOk result (self.new.0 ≡ self.old.0 ++ first_servers (served_by client.now) ((section, body.now) ∷ [])) }
        ensures later { OnOk result (self.new.1 ≡ self.old.1 ++ later_servers (served_by client.now) ((section, body.now) ∷ [])) }
    {
        let services = services_of(alloc, body)?;
        let pushed = if section.is_own() {
            push_servers(&mut self.first, client, services.as_slice())
        } else {
            push_servers(&mut self.later, client, services.as_slice())
        };
        drop(services);
        pushed
    }

    // Those of a leaf.
    fn of(alloc: Global, client: &TableLeaf<'_>) -> Result<OpenedFrom, AllocError>
        ensures first { IfOk result (λ o. o.0 ≡ first_servers (served_by client.now) client.now.component.node.program.sections) }
        ensures later { IfOk result (λ o. o.1 ≡ later_servers (served_by client.now) client.now.component.node.program.sections) }
    {
        let mut opened = OpenedFrom {
            first: Vec::new(alloc),
            later: Vec::new(alloc),
        };
        for (section, body) in client.program().sections() {
            opened.push_section(alloc, client, *section, body)?;
        }
        Ok(opened)
    }

    // Whether the leaf opens a session with this one in `main`.
    pub(crate) fn is_first(&self, leaf: LeafNo) -> bool
        ensures { result ≡ any_of (is_there leaf) self.now.0 }
    {
        is_among(self.first.as_slice(), leaf)
    }

    // Whether it does so in another section.
    pub(crate) fn is_later(&self, leaf: LeafNo) -> bool
        ensures { result ≡ any_of (is_there leaf) self.now.1 }
    {
        is_among(self.later.as_slice(), leaf)
    }
}

// Whether a leaf is among these.
fn is_among(servers: &[Option<LeafNo>], leaf: LeafNo) -> bool
    ensures { result ≡ any_of (is_there leaf) servers.now }
{
    for server in servers {
        if let Some(server) = server {
            if server.number() == leaf.number() {
                return true;
            }
        }
    }
    false
}

// Those of all leaves.
pub(crate) fn all_opened(alloc: Global, table: &NodeTable) -> Result<Vec<OpenedFrom>, AllocError>
    requires { IsReady table.now }
    ensures opened { IfOk result (λ l. l.items ≡ map (opened_from (components table.now)) (components table.now)) }
    ensures few { IfOk result (λ l. length l.items ≤ 64) }
{
    let mut all = Vec::new(alloc);
    for number in 0..table.leaf_count() {
        let client = TableLeaf::new(table, LeafNo::new(number as u32));
        all.push(OpenedFrom::of(alloc, &client)?)?;
    }
    Ok(all)
}
