// The lines of signals.
ghost use Rattle.std.specs.Prelude.{◌≡◌, ◌<◌, ◌≤◌, ◌++◌, true, length, sum, OnOk};
ghost use Rattle.gq_model.specs.machine.Scenario as model;
ghost use Rattle.gq_model.specs.rules.Accept.{steps_of_signal, signal_line, signal_lines_of, signal_lines_from};
ghost use Rattle.gq_load.specs.internal.Small_budgets.{all_small};

use crate::budget::Budget;
use crate::budget_lines::push_entry;
use gq_resolve::component::Component;
use itoa::Buffer;
use std::alloc::AllocError;

/// The steps of all leaves together for a signal of a leaf, by the numbers of both. No budget has a number above 10^12, as none of an accepted scenario has.
pub fn all_steps(budgets: &[Budget], leaf: usize, signal: u8) -> u64
    requires small { all_small budgets.now ≡ true }
    requires few { length budgets.now ≤ 64 }
    ensures { result ≡ sum (steps_of_signal leaf signal budgets.now) }
{
    let mut sum = 0_u64;
    for budget in budgets {
        sum += budget.steps().for_signal(leaf, signal);
    }
    sum
}

// Puts the line of a signal of a leaf with this label at the end of a text.
fn push_line(
    text: &mut Vec<u8>,
    label: &[u8],
    leaf: usize,
    signal: u8,
    budgets: &[Budget],
) -> Result<(), AllocError>
    requires there { leaf < length budgets.now }
    requires small { all_small budgets.now ≡ true }
    requires few { length budgets.now ≤ 64 }
    ensures { OnOk result ((c : model.Component) → c.label ≡ label.now
        → text.new.items ≡ text.old.items ++ signal_line leaf signal c (steps_of_signal leaf signal budgets.now)) }
{
    text.extend_from_slice(b"signal ")?;
    text.extend_from_slice(label)?;
    text.extend_from_slice(b" ")?;
    text.extend_from_slice(Buffer::new().format(signal).as_bytes())?;
    push_entry(
        text,
        b"steps",
        budgets[leaf].steps().for_signal(leaf, signal),
    )?;
    push_entry(text, b"all", all_steps(budgets, leaf, signal))?;
    text.extend_from_slice(b"\n")?;
    Ok(())
}

// Puts the lines of the signals of a component, the leaf of a number, at the end of a text.
fn push_lines(
    text: &mut Vec<u8>,
    component: &Component<'_>,
    leaf: usize,
    budgets: &[Budget],
) -> Result<(), AllocError>
    requires there { leaf < length budgets.now }
    requires small { all_small budgets.now ≡ true }
    requires few { length budgets.now ≤ 64 }
    ensures { OnOk result (text.new.items ≡ text.old.items ++ signal_lines_of leaf 0 component.now.node.signals component.now budgets.now) }
{
    let signals = component.leaf().signals();
    for signal in 0..signals {
        push_line(text, component.label(), leaf, signal, budgets)?;
    }
    Ok(())
}

/// Puts the lines of the signals of these leaves at the end of a text.
pub(crate) fn push_signal_lines(
    text: &mut Vec<u8>,
    components: &[Component<'_>],
    budgets: &[Budget],
) -> Result<(), AllocError>
    requires as_many { length budgets.now ≡ length components.now }
    requires small { all_small budgets.now ≡ true }
    requires few { length budgets.now ≤ 64 }
    ensures { OnOk result (text.new.items ≡ text.old.items ++ signal_lines_from 0 components.now budgets.now) }
{
    for (leaf, component) in components.iter().enumerate() {
        push_lines(text, component, leaf, budgets)?;
    }
    Ok(())
}
