// Why a text is refused.
ghost use Rattle.std.specs.Prelude.{◌≡◌, false, true};
ghost use Rattle.gq_load.specs.Load_faults.{load_fault_text};
ghost use Rattle.gq_reports.specs.Command_outcomes.{GivesOf};
ghost use Rattle.gq_library.specs.Loads.{IsRefused};
ghost use Rattle.gq_library.specs.Texts.{IsPut};

use crate::result_codes::{MEMORY, REFUSED};
use crate::texts::put;
use gq_load::load_fault::LoadFault;
use gq_reports::RunFault;
use std::alloc::Global;

// The status of a fault of loading.
pub(crate) fn status_of(text: &[u8], fault: RunFault<'static>) -> u32
    requires { GivesOf fault text.now }
    ensures refused { result ≡ REFUSED → IsRefused text.now }
    ensures known { (result ≡ REFUSED → ⊥) → result ≡ MEMORY }
{
    let _text = text;
    match fault {
        RunFault::Load(_) => REFUSED,
        RunFault::Memory => MEMORY,
        _ => MEMORY,
    }
}

// Puts the line of a fault into a buffer, with its whole length, unless the host refuses memory.
pub(crate) fn put_fault(
    alloc: Global,
    fault: LoadFault,
    buffer: &mut [u8],
    written: &mut usize,
) -> bool
    ensures reported { result ≡ true → IsPut (load_fault_text fault) buffer.old buffer.new written.new }
    ensures buffer { result ≡ false → buffer.new ≡ buffer.old }
    ensures written { result ≡ false → written.new ≡ written.old }
{
    match format!(in alloc; "{fault}") {
        Err(_) => false,
        Ok(line) => {
            *written = put(line.as_bytes(), buffer);
            true
        }
    }
}
