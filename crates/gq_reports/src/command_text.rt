// The text of a command, written out.
ghost use Rattle.std.specs.Prelude.{◌≡◌, Ok};
ghost use Rattle.gq_reports.specs.Command_outcomes.{WritesAs};
ghost use Rattle.gq_reports.specs.Whole.{Written};

use crate::run_fault::RunFault;
use gq_output::counted::{Counted, put};
use std::io::Write;

/// Writes the text that a command has made, whole. Fails with `Write` if a write fails; then a prefix of the text was written.
pub fn put_text<'a, W: Write>(out: &mut Counted<W>, text: &[u8]) -> Result<(), RunFault<'a>>
    ensures { (w : Written) → w ≡ Ok text.now → WritesAs W.contents w out.old out.new result }
{
    match put(out, text) {
        Ok(()) => Ok(()),
        Err(_) => Err(RunFault::Write),
    }
}
