// What the verifier says of the program of a leaf.
ghost use Rattle.std.specs.Prelude.{◌≡◌, None, IfOk, IfErr};
ghost use Rattle.gq_load.specs.Load_faults.{Prints};
ghost use Rattle.gq_load.specs.internal.Judged_programs.{judged_by, leaf_refusal};
ghost use Rattle.gq_load.specs.Load.{refused};

use crate::load_fault::LoadFault;
use gq_program::Interfaces;
use gq_program::program_tree::Program;
use gq_resolve::component::Component;
use gq_verify::{Verified, verify};

// What is said of a leaf's program.
pub(crate) fn judge<'a>(
    component: &Component<'a>,
    program: &'a Program,
    interfaces: &'a Interfaces,
) -> Result<Verified<'a>, LoadFault>
    requires { program.now ≡ component.now.node.program }
    ensures subject { IfOk result (λ v. v ≡ judged_by interfaces.now component.now) }
    ensures faultless { IfOk result (λ v. leaf_refusal interfaces.now component.now ≡ None) }
    ensures refused { IfErr result (λ f. Prints f (refused (leaf_refusal interfaces.now component.now))) }
{
    let leaf = component.leaf();
    match verify(
        program,
        leaf.provides(),
        interfaces,
        leaf.inputs(),
        leaf.signals(),
    ) {
        Ok(verified) => Ok(verified),
        Err(fault) => Err(LoadFault::Rule {
            leaf: leaf.name().copied(),
            rule: fault.rule,
            section: fault.section,
            place: fault.place,
        }),
    }
}
