// Where sessions with a leaf are opened.
ghost use Rattle.std.specs.Prelude.{◌≡◌, ◌≤◌, ◌+◌, ◌++◌, ◌∷◌, [], OnOk, IfOk, codes, decimal, map, sum_by};
ghost use Rattle.gq_model.specs.machine.Program.{Do, Done, size};
ghost use Rattle.gq_model.specs.machine.Scenario.{components};
ghost use Rattle.gq_model.specs.texts.Code.{greatest_statements};
ghost use Rattle.gq_program.specs.Statement_trees.{tree_of};
ghost use Rattle.gq_laws.specs.Ready.{IsReady};
ghost use Rattle.gq_races.specs.Races.{found_in, stated_in};
ghost use Rattle.gq_races.specs.Race_text.{opened_text};
ghost use Rattle.gq_races.specs.internal.Kind_lines.{opened_line};
ghost use Rattle.gq_races.specs.internal.Openers.{opened_among, opens_among};
ghost use Rattle.gq_views.specs.Listing.{joined, line};
ghost use Rattle.gq_views.specs.internal.Table_leaves.{served_by};

use crate::statement_prefix::prefix_of;
use gq_model::program::Instruction;
use gq_model::section::Section;
use gq_program::program_tree::{Body, Statement};
use gq_resolve::NodeTable;
use gq_scenario::scenario::LeafNo;
use gq_views::table_leaf::TableLeaf;
use itoa::Buffer;
use std::alloc::{AllocError, Global};

// Whether a statement of a leaf opens a session with this one.
fn opens(client: &TableLeaf<'_>, leaf: LeafNo, instruction: &Instruction) -> bool
    ensures { result ≡ opens_among (served_by client.now) leaf instruction.now }
{
    if let Instruction::Open(_, service, _) = instruction {
        if let Some(server) = client.server(service) {
            return server.number() == leaf.number();
        }
    }
    false
}

// The line of a statement with its number.
fn push_number(text: &mut Vec<u8>, prefix: &[u8], number: usize) -> Result<(), AllocError>
    ensures { OnOk result (text.new.items ≡ text.old.items ++ line 0 (codes "  opened by " ++ prefix.now ++ decimal number)) }
{
    text.extend_from_slice(b"  opened by ")?;
    text.extend_from_slice(prefix)?;
    text.extend_from_slice(Buffer::new().format(number as u64).as_bytes())?;
    text.extend_from_slice(b"\n")
}

// The line of a statement without statements in it, if it opens a session with this leaf.
fn push_if_opens(
    text: &mut Vec<u8>,
    client: &TableLeaf<'_>,
    leaf: LeafNo,
    prefix: &[u8],
    number: usize,
    instruction: &Instruction,
) -> Result<(), AllocError>
    ensures { OnOk result (text.new.items ≡ text.old.items
        ++ joined (map (opened_line prefix.now) (found_in (opens_among (served_by client.now) leaf) number (Do instruction.now Done)))) }
{
    if opens(client, leaf, instruction) {
        push_number(text, prefix, number)
    } else {
        Ok(())
    }
}

// The lines of a statement with this number, and of those in it; returns the number of the next.
#[cycle(opens)]
fn push_opens_in(
    text: &mut Vec<u8>,
    client: &TableLeaf<'_>,
    leaf: LeafNo,
    prefix: &[u8],
    number: usize,
    statement: &Statement,
) -> Result<usize, AllocError>
    requires { number + size (tree_of (statement.now ∷ [])) ≤ 65536 }
    ensures lines { OnOk result (text.new.items ≡ text.old.items
        ++ joined (map (opened_line prefix.now) (found_in (opens_among (served_by client.now) leaf) number (tree_of (statement.now ∷ []))))) }
    ensures next { IfOk result (λ next. next ≡ number + size (tree_of (statement.now ∷ []))) }
{
    match statement {
        Statement::Plain(instruction) => {
            push_if_opens(text, client, leaf, prefix, number, instruction)?;
            Ok(number + 1)
        }
        Statement::If(arm, other) => {
            let between = push_opens(text, client, leaf, prefix, number + 1, arm)?;
            push_opens(text, client, leaf, prefix, between, other)
        }
        Statement::Loop(_, body) => push_opens(text, client, leaf, prefix, number + 1, body),
    }
}

// The lines of the statements of a list whose first has this number; returns the number of the next.
#[cycle(opens)]
fn push_opens(
    text: &mut Vec<u8>,
    client: &TableLeaf<'_>,
    leaf: LeafNo,
    prefix: &[u8],
    first: usize,
    body: &Body,
) -> Result<usize, AllocError>
    requires { first + size body.now ≤ 65536 }
    ensures lines { OnOk result (text.new.items ≡ text.old.items
        ++ joined (map (opened_line prefix.now) (found_in (opens_among (served_by client.now) leaf) first body.now))) }
    ensures next { IfOk result (λ next. next ≡ first + size body.now) }
{
    let mut number = first;
    for statement in body.statements() {
        number = push_opens_in(text, client, leaf, prefix, number, statement)?;
    }
    Ok(number)
}

// The lines of a section.
fn push_section(
    alloc: Global,
    text: &mut Vec<u8>,
    client: &TableLeaf<'_>,
    leaf: LeafNo,
    section: Section,
    body: &Body,
) -> Result<(), AllocError>
    requires { size body.now ≤ 4096 }
    ensures { OnOk result (text.new.items ≡ text.old.items
        ++ joined (map opened_text (stated_in (λ section. opens_among (served_by client.now) leaf) client.now.component.label ((section, body.now) ∷ [])))) }
{
    let prefix = prefix_of(alloc, client.label(), section)?;
    let pushed = push_opens(text, client, leaf, prefix.as_slice(), 1, body);
    drop(prefix);
    match pushed {
        Ok(_) => Ok(()),
        Err(refused) => Err(refused),
    }
}

// The lines of a leaf's sections.
fn push_sections(
    alloc: Global,
    text: &mut Vec<u8>,
    client: &TableLeaf<'_>,
    leaf: LeafNo,
    sections: &[(Section, Body)],
) -> Result<(), AllocError>
    requires { sum_by (λ p. size p.1) sections.now ≤ greatest_statements }
    ensures { OnOk result (text.new.items ≡ text.old.items
        ++ joined (map opened_text (stated_in (λ section. opens_among (served_by client.now) leaf) client.now.component.label sections.now))) }
{
    for (section, body) in sections {
        push_section(alloc, text, client, leaf, *section, body)?;
    }
    Ok(())
}

// The lines of a leaf.
fn push_client(
    alloc: Global,
    text: &mut Vec<u8>,
    client: &TableLeaf<'_>,
    leaf: LeafNo,
) -> Result<(), AllocError>
    ensures { OnOk result (text.new.items ≡ text.old.items
        ++ joined (map opened_text (stated_in (λ section. opens_among (served_by client.now) leaf)
        client.now.component.label client.now.component.node.program.sections))) }
{
    let program = client.program();
    program.laws();
    push_sections(alloc, text, client, leaf, program.sections())
}

// The lines of all leaves.
pub(crate) fn push_openers(
    alloc: Global,
    text: &mut Vec<u8>,
    table: &NodeTable,
    leaf: LeafNo,
) -> Result<(), AllocError>
    requires { IsReady table.now }
    ensures { OnOk result (text.new.items ≡ text.old.items
        ++ joined (map opened_text (opened_among (components table.now) leaf (components table.now)))) }
{
    for number in 0..table.leaf_count() {
        let client = TableLeaf::new(table, LeafNo::new(number as u32));
        push_client(alloc, text, &client, leaf)?;
    }
    Ok(())
}
