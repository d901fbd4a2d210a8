// What is least of a scenario without its quantities.
ghost use Rattle.std.specs.Prelude.{◌≡◌, None, IfOk, map};
ghost use Rattle.gq_model.specs.machine.Scenario as model;
ghost use Rattle.gq_model.specs.machine.Scenario.{system};
ghost use Rattle.gq_model.specs.rules.Accept as accept;
ghost use Rattle.gq_load.specs.Unsized_judgement.{unsized_fault};
ghost use Rattle.gq_sizes.specs.Size.{all_gifts};
ghost use Rattle.gq_sizes.specs.Passing.{endless_from, endless_rows};
ghost use Rattle.gq_sizes.specs.Saturated_tables.{AreLeast, AreOf, caps_rows, leasts_from, ram_rows};

use crate::endless::{Sessions, endless};
use crate::faultless_programs::all_verified;
use crate::interface_lines::Sums;
use crate::leaf_needs::{least_of_leaves, owns};
use crate::needs::{least_caps, least_ram};
use crate::point_maxima::LeastGifts;
use crate::section_levels::levels_are_low;
use crate::unending::{endless_leaves, endless_owns};
use gq_load::budget::Budget;
use gq_load::unsized_scenarios::Unsized;
use gq_resolve::component::Component;
use gq_scenario::scenario::Scenario;
use gq_tariff::Amount;
use gq_verify::Verified;
use std::alloc::{AllocError, Global};

/// What interfaces and leaves need at least, and where no number of capabilities is enough.
#[derive(Drop)]
pub(crate) struct LeastFound {
    pub sums: Sums,
    pub leaves: Vec<Amount>,
    pub endless: Vec<bool>,
}

/// The least sums of need and upgrades of each interface of a scenario without its quantities.
fn sums_of(
    alloc: Global,
    free: &Scenario,
    components: &[Component<'_>],
    leaves: &[Verified<'_>],
) -> Result<Sums, AllocError>
    requires { AreOf (system free.now) components.now leaves.now free.now.interfaces }
    ensures ram { IfOk result (λ s. s.ram.items ≡ ram_rows (system free.now) (all_gifts (system free.now) components.now) free.now.interfaces) }
    ensures caps { IfOk result (λ s. s.caps.items ≡ caps_rows (system free.now) free.now.interfaces) }
    ensures endless { IfOk result (λ s. s.endless.items ≡ endless_rows (system free.now) free.now.interfaces) }
{
    let interfaces = free.interfaces();
    let ram = least_ram(alloc, components, leaves, interfaces)?;
    let caps = least_caps(alloc, components, leaves, interfaces)?;
    let endless = endless(alloc, components, leaves, interfaces)?;
    Ok(Sums { ram, caps, endless })
}

/// What each leaf of a scenario without its quantities needs at least, by these least sums.
fn least_leaves(
    alloc: Global,
    free: &Scenario,
    components: &[Component<'_>],
    leaves: &[Verified<'_>],
    budgets: &[Budget],
    sums: &Sums,
) -> Result<Vec<Amount>, AllocError>
    requires leaves { AreOf (system free.now) components.now leaves.now free.now.interfaces }
    requires budgets { budgets.now ≡ accept.budgets free.now }
    requires caps { sums.now.caps.items ≡ caps_rows (system free.now) free.now.interfaces }
    ensures { IfOk result (λ least. least.items ≡ leasts_from (system free.now) 0 components.now) }
{
    levels_are_low(leaves);
    let given = LeastGifts {
        interfaces: free.interfaces(),
        sums: sums.caps.as_slice(),
    };
    let owns = owns(alloc, leaves, budgets, &given)?;
    least_of_leaves(alloc, components, owns.as_slice())
}

/// For which leaves of a scenario without its quantities no number of capabilities is enough, by these interfaces and levels.
fn unending_leaves(
    alloc: Global,
    free: &Scenario,
    components: &[Component<'_>],
    leaves: &[Verified<'_>],
    sums: &Sums,
) -> Result<Vec<bool>, AllocError>
    requires leaves { AreOf (system free.now) components.now leaves.now free.now.interfaces }
    requires endless { sums.now.endless.items ≡ endless_rows (system free.now) free.now.interfaces }
    ensures { IfOk result (λ endless. endless.items ≡ endless_from (system free.now) 0 components.now) }
{
    levels_are_low(leaves);
    let sessions = Sessions {
        interfaces: free.interfaces(),
        tests: sums.endless.as_slice(),
    };
    let owns = endless_owns(alloc, leaves, &sessions)?;
    endless_leaves(alloc, components, owns.as_slice())
}

/// What is least of a scenario without its quantities, which breaks no rule that they do not decide.
pub(crate) fn found_of(
    alloc: Global,
    free: &Scenario,
    components: &[Component<'_>],
    judged: &Unsized,
) -> Result<LeastFound, AllocError>
    requires components { components.now ≡ model.components free.now }
    requires programs { judged.now.programs.items ≡ map (λ c. c.node.program) components.now }
    requires budgets { judged.now.budgets.items ≡ accept.budgets free.now }
    requires faultless { unsized_fault free.now ≡ None }
    ensures ram { IfOk result (λ f. f.sums.ram.items ≡ ram_rows (system free.now) (all_gifts (system free.now) components.now) free.now.interfaces) }
    ensures caps { IfOk result (λ f. f.sums.caps.items ≡ caps_rows (system free.now) free.now.interfaces) }
    ensures endless { IfOk result (λ f. f.sums.endless.items ≡ endless_rows (system free.now) free.now.interfaces) }
    ensures leaves { IfOk result (λ f. AreLeast (system free.now) f.leaves.items f.endless.items) }
{
    let leaves = all_verified(
        alloc,
        components,
        judged.programs.as_slice(),
        free.interfaces(),
    )?;
    let sums = sums_of(alloc, free, components, leaves.as_slice())?;
    let budgets = judged.budgets.as_slice();
    let least = least_leaves(alloc, free, components, leaves.as_slice(), budgets, &sums)?;
    let endless = unending_leaves(alloc, free, components, leaves.as_slice(), &sums)?;
    Ok(LeastFound {
        sums,
        leaves: least,
        endless,
    })
}
