// Programs that break no rule.
ghost use Rattle.std.specs.Prelude.{◌≡◌, IfOk};
ghost use Rattle.gq_sizes.specs.Needing.{BreakNothing, subjects_by};

use gq_load::unsized_scenarios::verified;
use gq_program::Interfaces;
use gq_program::program_tree::Program;
use gq_resolve::component::Component;
use gq_verify::Verified;
use std::alloc::{AllocError, Global};

/// What the verifier says of each of these leaves, none of which breaks a rule.
pub(crate) fn all_verified<'a>(
    alloc: Global,
    components: &[Component<'a>],
    programs: &'a [Program],
    interfaces: &'a Interfaces,
) -> Result<Vec<Verified<'a>>, AllocError>
    requires { BreakNothing interfaces.now components.now programs.now }
    ensures { IfOk result (λ leaves. leaves.items ≡ subjects_by interfaces.now components.now programs.now) }
{
    let mut leaves = Vec::new(alloc);
    for (component, program) in components.iter().zip(programs) {
        leaves.push(verified(component, program, interfaces))?;
    }
    Ok(leaves)
}
