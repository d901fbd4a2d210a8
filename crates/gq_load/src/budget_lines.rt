// The lines of budgets.
ghost use Rattle.std.specs.Prelude.{◌≡◌, ◌++◌, length, OnOk, IfOk};
ghost use Rattle.gq_model.specs.machine.Accounts.{entry};
ghost use Rattle.gq_model.specs.machine.Scenario as model;
ghost use Rattle.gq_model.specs.rules.Accept.{budget_line, budget_lines_of};
ghost use Rattle.gq_scenario.specs.Component_trees.{version_number};

use crate::budget::Budget;
use gq_resolve::component::Component;
use gq_scenario::scenario::Version;
use itoa::Buffer;
use std::alloc::{AllocError, Global};

// Puts a word and a number at the end of a text.
pub(crate) fn push_entry(text: &mut Vec<u8>, word: &[u8], number: u64) -> Result<(), AllocError>
    ensures { OnOk result (text.new.items ≡ text.old.items ++ entry word.now number) }
{
    text.extend_from_slice(b" ")?;
    text.extend_from_slice(word)?;
    text.extend_from_slice(b" ")?;
    text.extend_from_slice(Buffer::new().format(number).as_bytes())?;
    Ok(())
}

// Puts the line of the budget of a leaf with this label at the end of a text.
fn push_line(
    text: &mut Vec<u8>,
    version: Version,
    label: &[u8],
    budget: &Budget,
) -> Result<(), AllocError>
    ensures { OnOk result ((c : model.Component) → c.label ≡ label.now → text.new.items ≡ text.old.items ++ budget_line (version_number version) c budget.now) }
{
    text.extend_from_slice(b"budget ")?;
    text.extend_from_slice(label)?;
    push_entry(text, b"own", budget.own())?;
    if version.counts_caps() {
        push_entry(text, b"caps", budget.own_caps())?;
    }
    push_entry(text, b"steps", budget.steps().from_start())?;
    text.extend_from_slice(b"\n")?;
    Ok(())
}

// The lines of the budgets of these leaves.
pub(crate) fn component_lines(
    alloc: Global,
    version: Version,
    components: &[Component<'_>],
    budgets: &[Budget],
) -> Result<Vec<u8>, AllocError>
    requires { length budgets.now ≡ length components.now }
    ensures { IfOk result (λ text. text.items ≡ budget_lines_of (version_number version) components.now budgets.now) }
{
    let mut text = Vec::new(alloc);
    for (place, component) in components.iter().enumerate() {
        push_line(&mut text, version, component.label(), &budgets[place])?;
    }
    Ok(text)
}
