// Texts that fit a scenario.
ghost use Rattle.gq_command.specs.Input.{GivesAtMost};
ghost use Rattle.gq_fit.specs.Fitted.{WritesFit};
ghost use Rattle.gq_output.specs.Writer_failures.{written_to};
ghost use Rattle.gq_cli.specs.Early_command_ends.{Ended, IsKnown, LeavesWriter};
ghost use Rattle.gq_cli.specs.Executed.{Of_fit, ReadsScenario, fits, reasons};
ghost use Rattle.gq_cli.specs.internal.Fit_write_ends.{IsReportedFit};

use crate::execute::CommandFault;
use gq_command::command::Fitting;
use gq_command::input::read_input;
use gq_fit::fit::{fit, fit_donations};
use gq_fit::fit_fault::FitFault;
use gq_output::counted::Counted;
use std::alloc::Global;
use std::io::{Read, Write};

// Writes a text that fits the scenario that a reader has.
pub(crate) fn of_fit<R: Read, W: Write>(
    alloc: Global,
    fitting: Fitting,
    scenario: &mut R,
    out: &mut Counted<W>,
) -> Result<(), CommandFault>
    ensures ended { IsKnown result → ReadsScenario (R.remaining scenario.old) (R.remaining scenario.new) (Of_fit fitting)
        (Ended result (written_to W.contents out.old) (written_to W.contents out.new)) }
    ensures leaves { LeavesWriter out.old out.new result }
    ensures most { GivesAtMost 18874369 (R.remaining scenario.old) (R.remaining scenario.new) }
{
    let input = read_input(alloc, scenario)?;
    of_fit_text(alloc, fitting, input.as_slice(), out)
}

// Writes a text that fits a scenario.
fn of_fit_text<W: Write>(
    alloc: Global,
    fitting: Fitting,
    scenario: &[u8],
    out: &mut Counted<W>,
) -> Result<(), CommandFault>
    ensures ended { IsKnown result → Ended result (written_to W.contents out.old) (written_to W.contents out.new) (Of_fit fitting scenario.now) }
    ensures leaves { LeavesWriter out.old out.new result }
{
    match write_fit(alloc, fitting, scenario, out) {
        Ok(()) => Ok(()),
        Err(fault) => Err(reported(alloc, fault)),
    }
}

// Writes a text with this fitted.
fn write_fit<W: Write>(
    alloc: Global,
    fitting: Fitting,
    scenario: &[u8],
    out: &mut Counted<W>,
) -> Result<(), FitFault>
    ensures { WritesFit W.contents (fits fitting scenario.now) (reasons fitting) scenario.now out.old out.new result }
{
    match fitting {
        Fitting::Quantities => fit(alloc, scenario, out),
        Fitting::Donations => fit_donations(alloc, scenario, out),
    }
}

// Why a text was not written to its end, as a fault of the command: the line of a refusal is made.
fn reported(alloc: Global, fault: FitFault) -> CommandFault
    ensures { IsReportedFit fault result }
{
    match fault {
        FitFault::Memory => CommandFault::Memory,
        FitFault::Write => CommandFault::Write,
        refused => match format!(in alloc; "trade: {refused}\n") {
            Ok(line) => CommandFault::Refused(line),
            Err(_) => CommandFault::Memory,
        },
    }
}
