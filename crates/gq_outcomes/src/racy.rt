// Which servers are racy: by the order of whose requests the outcome could depend on the turns.
ghost use Rattle.std.specs.Prelude.{◌≡◌, ◌&&◌, ◌||◌, ◌∷◌, [], List, IfOk, length, map, not};
ghost use Rattle.gq_model.specs.machine.Lists.{any_of};
ghost use Rattle.gq_model.specs.machine.Scenario.{Component, components, system};
ghost use Rattle.gq_laws.specs.Ready.{IsReady};
ghost use Rattle.gq_views.specs.internal.Table_leaves.{served_by};
ghost use Rattle.gq_outcomes.specs.Choices as choices;
ghost use Rattle.gq_model.specs.machine.Sections.{is_start_section};
ghost use Rattle.gq_program.specs.Statement_trees.{tree_of};
ghost use Rattle.gq_outcomes.specs.internal.Racy as spec;
ghost use Rattle.gq_outcomes.specs.internal.Racy.{changes_in, is_marked};

use gq_model::program::Name;
use gq_model::section::Section;
use gq_program::program_tree::{Body, Program, Statement};
use gq_races::effects::changes_own;
use gq_races::races::all_shared;
use gq_resolve::NodeTable;
use gq_resolve::opened_services::opened;
use gq_scenario::scenario::LeafNo;
use gq_views::table_leaf::TableLeaf;
use std::alloc::{AllocError, Global};

// Whether a statement, or one in it, changes an own slot.
#[cycle(changes)]
fn has_change(statement: &Statement) -> bool
    ensures { result ≡ changes_in (tree_of (statement.now ∷ [])) }
{
    match statement {
        Statement::Plain(instruction) => changes_own(instruction),
        Statement::If(arm, other) => has_changes(arm) || has_changes(other),
        Statement::Loop(_, body) => has_changes(body),
    }
}

// Whether a statement of a list does.
#[cycle(changes)]
fn has_changes(body: &Body) -> bool
    ensures { result ≡ changes_in body.now }
{
    for statement in body.statements() {
        if has_change(statement) {
            return true;
        }
    }
    false
}

// Whether a section changes an own slot, and is not `main`.
fn section_changes(section: Section, body: &Body) -> bool
    ensures { result ≡ (not (is_start_section section) && changes_in body.now) }
{
    !section.is_start() && has_changes(body)
}

// Whether a section of a program other than `main` changes an own slot.
#[tactic(auto, using(crate::proofs::Changes::parts_left, crate::proofs::Changes::parts_here))]
fn changes_later(program: &Program) -> bool
    ensures { result ≡ spec.changes_later program.now.sections }
{
    for (section, body) in program.sections() {
        if section_changes(*section, body) {
            return true;
        }
    }
    false
}

// Whether a leaf of this program, which is shared or not, has a race.
fn has_race(is_shared: bool, program: &Program) -> bool
    ensures { result ≡ (is_shared && spec.changes_later program.now.sections) }
{
    is_shared && changes_later(program)
}

// The shared ones among leaves that have a race.
fn with_race(alloc: Global, shared: &[bool], programs: &[Program]) -> Result<Vec<bool>, AllocError>
    requires { length shared.now ≡ length programs.now }
    ensures { (all : List Component) → programs.now ≡ map (λ c. c.node.program) all → IfOk result (λ r. r.items ≡ spec.with_race shared.now 0 all) }
{
    let mut all = Vec::new(alloc);
    for place in 0..programs.len() {
        all.push(has_race(shared[place], &programs[place]))?;
    }
    Ok(all)
}

// Whether a service of these that a leaf opens leads to a leaf that is marked.
fn leads_to_marked(client: &TableLeaf<'_>, services: &[Name], marked: &[bool]) -> bool
    ensures { result ≡ any_of (λ service. is_marked marked.now (served_by client.now service)) services.now }
{
    for service in services {
        if is_marked(marked, client.server(service)) {
            return true;
        }
    }
    false
}

// Whether a leaf that is found is marked.
fn is_marked(marked: &[bool], leaf: Option<LeafNo>) -> bool
    ensures { result ≡ is_marked marked.now leaf }
{
    match leaf {
        None => false,
        Some(leaf) => match marked.get(leaf.index()) {
            None => false,
            Some(is_marked) => *is_marked,
        },
    }
}

// Whether a leaf uses one of those that are marked.
fn uses_marked(alloc: Global, client: &TableLeaf<'_>, marked: &[bool]) -> Result<bool, AllocError>
    ensures { IfOk result (λ r. r ≡ spec.uses_marked client.now.all client.now.component marked.now) }
{
    let services = opened(alloc, client.program())?;
    let uses = leads_to_marked(client, services.as_slice(), marked);
    drop(services);
    Ok(uses)
}

// Whether one of two marks is set.
fn is_either(first: bool, second: bool) -> bool
    ensures { result ≡ (first || second) }
{
    first || second
}

// The leaves that are marked, and those that use one that was found.
fn with_users(
    alloc: Global,
    table: &NodeTable,
    marked: &[bool],
    found: &[bool],
) -> Result<Vec<bool>, AllocError>
    requires ready { IsReady table.now }
    requires marked { length marked.now ≡ length (components table.now) }
    ensures { IfOk result (λ r. r.items ≡ spec.with_users (components table.now) marked.now found.now 0 (components table.now)) }
{
    let mut all = Vec::new(alloc);
    for number in 0..table.leaf_count() {
        let client = TableLeaf::new(table, LeafNo::new(number as u32));
        let uses = uses_marked(alloc, &client, found)?;
        all.push(is_either(marked[number], uses))?;
    }
    Ok(all)
}

// The leaves from which uses lead to a leaf that is marked, over any number of leaves.
fn leading(alloc: Global, table: &NodeTable, marked: &[bool]) -> Result<Vec<bool>, AllocError>
    requires ready { IsReady table.now }
    requires marked { length marked.now ≡ length (components table.now) }
    ensures { IfOk result (λ r. r.items ≡ spec.leading (length (components table.now)) (components table.now) marked.now) }
{
    let mut found = Vec::from_slice(alloc, marked)?;
    for _round in 0..table.leaf_count() {
        found = with_users(alloc, table, marked, found.as_slice())?;
    }
    Ok(found)
}

// Whether both marks are set.
fn are_both(first: bool, second: bool) -> bool
    ensures { result ≡ (first && second) }
{
    first && second
}

// Those of the first leaves that are among the second ones, too.
fn both(alloc: Global, first: &[bool], second: &[bool]) -> Result<Vec<bool>, AllocError>
    requires { length first.now ≡ length second.now }
    ensures { IfOk result (λ r. r.items ≡ spec.both first.now second.now) }
{
    let mut all = Vec::new(alloc);
    for place in 0..first.len() {
        all.push(are_both(first[place], second[place]))?;
    }
    Ok(all)
}

/// Whether each leaf of a scenario is a racy server. Refused only if the host refuses memory.
pub(crate) fn racy_servers(alloc: Global, table: &NodeTable) -> Result<Vec<bool>, AllocError>
    requires { IsReady table.now }
    ensures { IfOk result (λ r. r.items ≡ choices.racy_servers (system table.now)) }
{
    let shared = all_shared(alloc, table)?;
    let marked = with_race(alloc, shared.as_slice(), table.programs())?;
    let leading = leading(alloc, table, marked.as_slice())?;
    both(alloc, shared.as_slice(), leading.as_slice())
}
