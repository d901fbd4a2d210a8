// Loading and dropping.
ghost use Rattle.std.specs.Prelude.{◌≡◌, None, IfErr, IsOk};
ghost use Rattle.gq_load.specs.Load.{loaded, fault_text};
ghost use Rattle.gq_library.specs.Loads.{Holds, IsRefused, Starts};
ghost use Rattle.gq_library.specs.Texts.{IsPut};

use crate::held::{OwnedWorld, WorldHandle};
use crate::refusal_line::{put_fault, status_of};
use crate::result_codes::{LOADED, MEMORY, REFUSED};
use gq_reports::RunFault;
use gq_world::world::World;
use std::alloc::Global;
use std::mem::replace;

/// Loads a scenario, a text in TOML. What the handle held before is freed first. If the result is not `LOADED`, the handle is empty afterwards.
///
/// - `LOADED`: the handle holds the world at the start of the accepted scenario.
/// - `REFUSED`: the text is no accepted scenario; `trade_fault` has the reason.
/// - `MEMORY`: the host refused memory.
#[unsafe(no_mangle)]
pub extern "C" fn trade_load(alloc: Global, text: &[u8], world: &mut WorldHandle) -> u32
    ensures loaded { result ≡ LOADED → Holds world.new.world (Starts text.now) }
    ensures refused { result ≡ REFUSED → IsRefused text.now }
    ensures known { (result ≡ LOADED → ⊥) → (result ≡ REFUSED → ⊥) → result ≡ MEMORY }
    ensures none { (result ≡ LOADED → ⊥) → world.new.world ≡ None }
{
    trade_drop(alloc, world);
    match World::load(alloc, text) {
        Err(fault) => status_of(text, fault),
        Ok(loaded) => match Box::new(alloc, loaded) {
            Err(refused) => {
                refused.value.end();
                MEMORY
            }
            Ok(boxed) => {
                world.put(alloc, OwnedWorld::of(boxed));
                LOADED
            }
        },
    }
}

/// Puts the line of the first fault of a scenario into `line`, as much of it as fits. `written` gets the length of the whole line.
///
/// - `REFUSED`: this is the fault.
/// - `LOADED`: the text is accepted; `written` is 0 and `line` is unchanged.
/// - `MEMORY`: the host refused memory; `written` is 0 and `line` is unchanged.
#[unsafe(no_mangle)]
pub extern "C" fn trade_fault(
    alloc: Global,
    text: &[u8],
    line: &mut [u8],
    written: &mut usize,
) -> u32
    ensures accepted { result ≡ LOADED → IsOk (loaded text.now) }
    ensures refused { result ≡ REFUSED → IsRefused text.now }
    ensures known { (result ≡ LOADED → ⊥) → (result ≡ REFUSED → ⊥) → result ≡ MEMORY }
    ensures reported { result ≡ REFUSED → IfErr (loaded text.now) (λ f. IsPut (fault_text f) line.old line.new written.new) }
    ensures line { (result ≡ REFUSED → ⊥) → line.new ≡ line.old }
    ensures written { (result ≡ REFUSED → ⊥) → written.new ≡ 0 }
{
    *written = 0;
    match World::load(alloc, text) {
        Ok(loaded) => {
            loaded.end();
            LOADED
        }
        Err(RunFault::Load(fault)) => {
            if put_fault(alloc, fault, line, written) {
                REFUSED
            } else {
                MEMORY
            }
        }
        Err(_) => MEMORY,
    }
}

/// Frees what the handle holds, and leaves it empty. An empty handle stays as it is.
#[unsafe(no_mangle)]
pub extern "C" fn trade_drop(alloc: Global, world: &mut WorldHandle)
    ensures { world.new.world ≡ None }
{
    replace(world, WorldHandle::none()).free(alloc);
}
