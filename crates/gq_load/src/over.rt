// Leaves that use more than they are given, or may take too many steps.
ghost use Rattle.std.specs.Prelude.{◌≡◌, ◌∷◌, [], None, length, IfErr, OnOk};
ghost use Rattle.gq_model.specs.machine.Amounts as resources;
ghost use Rattle.gq_model.specs.rules.Accept.{own_refusal, steps_refusal};
ghost use Rattle.gq_load.specs.Load_faults.{Prints};
ghost use Rattle.gq_load.specs.Load.{refused};
ghost use Rattle.gq_load.specs.Over_limits.{IsFaultFor, over_refusal};

use crate::budget::Budget;
use crate::load_fault::LoadFault;
use gq_resolve::component::Component;

/// What a leaf may use too much of.
#[derive(Clone, Copy, Debug, PartialEq, Eq)]
pub enum Limit {
    /// Bytes of its own account: as many as its quantum has.
    Ram,
    /// Steps, for the start and for each signal: 10^12.
    Steps,
    /// Capabilities of its own account: as many as it is given.
    Caps,
}

// The fault of a leaf that uses more bytes of its own account than its quantum has.
fn over_ram(component: &Component<'_>, budget: &Budget) -> Option<LoadFault>
    ensures { IsFaultFor result (own_refusal resources.Ram (component.now ∷ []) (budget.now ∷ [])) }
{
    let leaf = component.leaf();
    let (own, quantum) = (budget.own(), leaf.quantum().ram());
    if own <= quantum {
        return None;
    }
    let leaf = leaf.name().copied();
    Some(LoadFault::OverQuantum { leaf, own, quantum })
}

// The fault of a leaf that may take more than 10^12 steps for the start, or for a signal.
fn over_steps(component: &Component<'_>, budget: &Budget) -> Option<LoadFault>
    ensures { IsFaultFor result (steps_refusal (component.now ∷ []) (budget.now ∷ [])) }
{
    if budget.steps().is_small() {
        return None;
    }
    let leaf = component.leaf().name().copied();
    Some(LoadFault::OverSteps { leaf })
}

// The fault of a leaf that uses more capabilities of its own account than it is given.
fn over_caps(component: &Component<'_>, budget: &Budget) -> Option<LoadFault>
    ensures { IsFaultFor result (own_refusal resources.Caps (component.now ∷ []) (budget.now ∷ [])) }
{
    let leaf = component.leaf();
    let (own, caps) = (budget.own_caps(), u64::from(leaf.quantum().caps()));
    if own <= caps {
        return None;
    }
    let leaf = leaf.name().copied();
    Some(LoadFault::OverCaps { leaf, own, caps })
}

/// The fault of a leaf that uses more than a limit. There is none where it uses as much or less.
pub fn over_fault(limit: Limit, component: &Component<'_>, budget: &Budget) -> Option<LoadFault>
    ensures { IsFaultFor result (over_refusal limit (component.now ∷ []) (budget.now ∷ [])) }
{
    match limit {
        Limit::Ram => over_ram(component, budget),
        Limit::Steps => over_steps(component, budget),
        Limit::Caps => over_caps(component, budget),
    }
}

// Refuses the first leaf that uses more than a limit.
pub(crate) fn check_over(
    limit: Limit,
    components: &[Component<'_>],
    budgets: &[Budget],
) -> Result<(), LoadFault>
    requires { length budgets.now ≡ length components.now }
    ensures none { OnOk result (over_refusal limit components.now budgets.now ≡ None) }
    ensures refused { IfErr result (λ f. Prints f (refused (over_refusal limit components.now budgets.now))) }
{
    for (place, component) in components.iter().enumerate() {
        if let Some(fault) = over_fault(limit, component, &budgets[place]) {
            return Err(fault);
        }
    }
    Ok(())
}
