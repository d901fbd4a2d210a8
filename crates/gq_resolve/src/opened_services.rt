// The services that programs open.
ghost use Rattle.std.specs.Prelude.{◌≡◌, ◌++◌, ◌∷◌, [], OnOk, IfOk, map};
ghost use Rattle.gq_model.specs.machine.Lists.{any_of};
ghost use Rattle.gq_model.specs.machine.Program.{text_eq};
ghost use Rattle.gq_model.specs.rules.Use.{services_of, services_in};
ghost use Rattle.gq_program.specs.Statement_trees.{tree_of};
ghost use Rattle.gq_resolve.specs.Served.{once, added};
ghost use Rattle.gq_program.specs.Name_keys.{AreWithin, key_of};

use gq_model::program::{Instruction, Name};
use gq_model::spelling::same_text;
use gq_program::key_index::KeyIndex;
use gq_program::name_keys::key_of;
use gq_program::program_tree::{Body, Program, Statement};
use gq_scenario::component_tree::copied;
use std::alloc::{AllocError, Global};

/// Puts the services of the open statements of a list at the end, in the order of the text. Fails only if the host refuses memory.
#[cycle(opened)]
pub fn push_opened(services: &mut Vec<Name>, body: &Body) -> Result<(), AllocError>
    ensures { OnOk result (services.new.items ≡ services.old.items ++ services_of body.now) }
{
    // A list that asks for nothing opens nothing.
    if body.is_quiet() {
        return Ok(());
    }
    for statement in body.statements() {
        push_opened_in(services, statement)?;
    }
    Ok(())
}

// Puts the services of a statement and those in it at the end.
#[cycle(opened)]
fn push_opened_in(services: &mut Vec<Name>, statement: &Statement) -> Result<(), AllocError>
    ensures { OnOk result (services.new.items ≡ services.old.items ++ services_of (tree_of (statement.now ∷ []))) }
{
    match statement {
        Statement::Plain(instruction) => {
            if let Instruction::Open(_, service, _) = instruction {
                services.push(copied(service))?;
            }
            Ok(())
        }
        Statement::If(arm, other) => {
            push_opened(services, arm)?;
            push_opened(services, other)
        }
        Statement::Loop(_, body) => push_opened(services, body),
    }
}

/// The services of the open statements of a program, in the order of the text. Refused only if the host refuses memory.
pub fn opened(alloc: Global, program: &Program) -> Result<Vec<Name>, AllocError>
    ensures { IfOk result (λ s. s.items ≡ services_in program.now.sections) }
{
    let mut services = Vec::new(alloc);
    for (_section, body) in program.sections() {
        push_opened(&mut services, body)?;
    }
    Ok(services)
}

// Whether a service, whose number this is, is among these, of which it is reported where they may stand.
fn is_among(service: &Name, key: u64, services: &[Name], places: &KeyIndex) -> bool
    requires key { key ≡ key_of service.now }
    requires places { AreWithin places.now (map key_of services.now) }
    ensures { result ≡ any_of (text_eq service.now) services.now }
{
    let (first, end) = places.range(key, services.len());
    for place in first..end {
        if same_text(service.as_bytes(), services[place].as_bytes()) {
            return true;
        }
    }
    false
}

// Puts a service at the end of these, of which it is reported where they may stand, where it is not among them.
fn push_once(
    services: &mut Vec<Name>,
    places: &mut KeyIndex,
    service: &Name,
) -> Result<(), AllocError>
    requires { AreWithin places.old (map key_of services.old.items) }
    ensures services { OnOk result (services.new.items ≡ added service.now services.old.items) }
    ensures places { OnOk result (AreWithin places.new (map key_of services.new.items)) }
{
    let key = key_of(service.as_bytes());
    if !is_among(service, key, services.as_slice(), places) {
        let count = services.len();
        services.push(copied(service))?;
        places.put(key, count);
    }
    Ok(())
}

/// Each of these services once, where it stands first. Refused only if the host refuses memory.
pub fn once(alloc: Global, services: &[Name]) -> Result<Vec<Name>, AllocError>
    ensures { IfOk result (λ s. s.items ≡ once services.now) }
{
    let mut kept = Vec::new(alloc);
    let mut places = KeyIndex::new();
    for service in services {
        push_once(&mut kept, &mut places, service)?;
    }
    Ok(kept)
}
