// How a command ends early.
ghost use Rattle.std.specs.Prelude.{◌≡◌, Some};
ghost use Rattle.gq_reports.specs.Command_outcomes.{run_fault_text};

use gq_load::load_fault::{LoadError, LoadFault};
use gq_model::fault::TurnFault;
use std::alloc::AllocError;
use std::error::Error;
use std::fmt::{self, Debug, Display, Formatter, Write};

/// Why the text of a command was not written to its end.
#[derive(Drop)]
pub enum RunFault<'a> {
    /// The scenario is refused, or the text or the code of the leaf that was asked for is no program.
    Load(LoadFault),
    /// No leaf has this name.
    NoComponent(&'a str),
    /// There is no outcome of this number.
    NoOutcome(u32),
    /// The text of the turns is refused, at this line from 1; a text that is too long at line 0.
    Turns { fault: TurnFault, line: u64 },
    /// Host memory was refused.
    Memory,
    /// A write failed. A prefix of the text went out.
    Write,
}

impl<'a> From<AllocError> for RunFault<'a> {
    ghost use Rattle.gq_reports.specs.declared.run_fault.RunFault.TheVariants.{Memory};

    ghost from_gives = { λ _ fault. fault ≡ Memory };

    fn from(_refused: AllocError) -> RunFault<'a> {
        RunFault::Memory
    }
}

impl<'a> From<LoadError> for RunFault<'a> {
    ghost use Rattle.gq_reports.specs.Command_outcomes.{run_fault_of};

    ghost from_gives = { λ error fault. fault ≡ run_fault_of error };

    fn from(error: LoadError) -> RunFault<'a> {
        match error {
            LoadError::Memory => RunFault::Memory,
            LoadError::Fault(fault) => RunFault::Load(fault),
        }
    }
}

impl<'a> Display for RunFault<'a> {
    ghost output = { λ fault. Some (run_fault_text fault) };

    fn fmt<W: Write>(&self, f: &mut Formatter<W>) -> fmt::Result {
        match self {
            RunFault::Load(fault) => write!(f, "{fault}"),
            RunFault::NoComponent(name) => write!(f, "no component {name}"),
            RunFault::NoOutcome(number) => write!(f, "no outcome {number}"),
            RunFault::Turns { fault, line } => write!(f, "{fault} line {line}"),
            RunFault::Memory => f.write_str("host memory refused"),
            RunFault::Write => f.write_str("file fault"),
        }
    }
}

impl<'a> Debug for RunFault<'a> {
    fn fmt<W: Write>(&self, f: &mut Formatter<W>) -> fmt::Result {
        Display::fmt(self, f)
    }
}

impl<'a> Error for RunFault<'a> {}
