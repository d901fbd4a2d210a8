// Where the open statements of a program lead.
ghost use Rattle.std.specs.Prelude.{◌≡◌, ◌<◌, length, slice_get, IfOk, IfSome, None};
ghost use Rattle.gq_model.specs.machine.Scenario.{components};
ghost use Rattle.gq_resolve.specs.NodeTables.{interface_number};
ghost use Rattle.gq_laws.specs.Ready.{IsReady};
ghost use Rattle.gq_bytecode.specs.Programs.{IsCodeOfProgram};
ghost use Rattle.gq_prepared.specs.Prepared.{AreOpenings};
ghost use Rattle.gq_prepared.specs.internal.Open_targets.{IsOpened, IsOpenedBy, IsServed};

use gq_bytecode::Code;
use gq_bytecode::bytecode_laws::stated;
use gq_laws::ready::served;
use gq_model::program::{Instruction, Name};
use gq_model::spelling::same_text;
use gq_program::interface::Interfaces;
use gq_resolve::NodeTable;
use gq_scenario::scenario::LeafNo;
use std::alloc::{AllocError, Global};

/// An `open` statement of a program, with where it leads: the number of its service's interface, the leaf that serves it, if one does, and the
/// capabilities that are given with the request.
#[derive(Clone, Copy)]
pub struct Opening {
    pub service: usize,
    pub server: Option<usize>,
    pub caps: u64,
}

// The number of a service's interface.
fn interface_number(interfaces: &Interfaces, service: &Name) -> Option<usize>
    ensures { result ≡ interface_number 0 service.now interfaces.now }
{
    for (number, (name, _interface)) in interfaces.entries().iter().enumerate() {
        if same_text(service.as_bytes(), name.as_bytes()) {
            return Some(number);
        }
    }
    None
}

// The leaf that serves a leaf's sessions of the interface of this number.
fn server_of(table: &NodeTable, leaf: LeafNo, number: usize) -> Option<usize>
    requires leaf { leaf < length (components table.now) }
    requires number { number < length table.now.interfaces }
    ensures { IfSome (slice_get (components table.now) leaf) (λ c. IsServed table.now c number result) }
{
    let _entries = table.scenario().interfaces().entries();
    match table.server(leaf, number as u32) {
        None => None,
        Some(server) => Some(server.index()),
    }
}

// Where a leaf's `open` of a service leads.
fn opening_of(table: &NodeTable, leaf: LeafNo, service: &Name) -> Opening
    requires ready { IsReady table.now }
    requires leaf { leaf < length (components table.now) }
    ensures { IfSome (slice_get (components table.now) leaf) (λ c. IsOpened table.now c service.now result) }
{
    served();
    let interfaces = table.scenario().interfaces();
    match interface_number(interfaces, service) {
        None => nowhere(),
        Some(number) => Opening {
            service: number,
            server: server_of(table, leaf, number),
            caps: u64::from(interfaces.entries()[number].1.given_caps()),
        },
    }
}

// An opening of no service, which leads nowhere.
fn nowhere() -> Opening
    ensures { result ≡ record { service = 0; server = None; caps = 0 } }
{
    Opening {
        service: 0,
        server: None,
        caps: 0,
    }
}

// Where a statement of a leaf leads, if it is an `open`.
fn led(table: &NodeTable, leaf: LeafNo, statement: &Instruction) -> Opening
    requires ready { IsReady table.now }
    requires leaf { leaf < length (components table.now) }
    ensures { IfSome (slice_get (components table.now) leaf) (λ c. IsOpenedBy table.now c statement.now result) }
{
    match statement {
        Instruction::Open(_, service, _) => opening_of(table, leaf, service),
        _ => nowhere(),
    }
}

/// Where the `open` statements of the program lead of which this is the code.
///
/// There is one for each statement that does not fit into eight bytes, by their numbers. A statement of another kind leads nowhere.
/// Refused only if the host refuses memory.
pub fn openings(
    alloc: Global,
    table: &NodeTable,
    leaf: LeafNo,
    code: &Code,
) -> Result<Vec<Opening>, AllocError>
    requires ready { IsReady table.now }
    requires leaf { leaf < length (components table.now) }
    requires code { IfSome (slice_get (components table.now) leaf) (λ c. IsCodeOfProgram code.now c.node.program.sections) }
    ensures openings { IfOk result (λ os. IfSome (slice_get (components table.now) leaf) (λ c. AreOpenings table.now c code.now os.items)) }
    ensures count { IfOk result (λ os. length os.items ≡ length code.now.longs) }
{
    stated();
    let mut openings = Vec::new(alloc);
    for statement in code.longs() {
        openings.push(led(table, leaf, statement))?;
    }
    Ok(openings)
}
