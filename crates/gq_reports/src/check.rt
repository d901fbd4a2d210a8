// The budgets of a scenario's leaves, as text.
ghost use Rattle.gq_reports.specs.Command_outcomes.{WritesAs};
ghost use Rattle.gq_reports.specs.Whole.{check_written};

use crate::command_text::put_text;
use crate::run_fault::RunFault;
use gq_load::checked::checked_lines;
use gq_output::counted::Counted;
use std::alloc::Global;
use std::io::Write;

/// Writes the verified budget of each leaf in preorder, a line each. It has the most bytes, and in version 2 capabilities, of its own account that the leaf
/// holds or lends, and the most steps that it takes, whatever the turns.
///
/// If the scenario is refused, or the host refuses memory, nothing is written.
pub fn check<W: Write>(
    alloc: Global,
    scenario: &[u8],
    out: &mut Counted<W>,
) -> Result<(), RunFault<'static>>
    ensures { WritesAs W.contents (check_written scenario.now) out.old out.new result }
{
    let lines = checked_lines(alloc, scenario)?;
    put_text(out, lines.as_slice())
}
