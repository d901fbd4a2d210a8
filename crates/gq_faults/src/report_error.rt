// Why not all faults were reported.
ghost use Rattle.std.specs.Prelude.{◌≡◌};

use gq_output::counted::WriteFault;
use std::alloc::{AllocError, AllocFailed};

/// Why not all faults were reported.
#[derive(Clone, Copy, Debug, PartialEq, Eq)]
pub enum ReportError {
    /// Host memory was refused.
    Memory,
    /// A write failed.
    Write,
}

impl From<AllocError> for ReportError {
    ghost use Rattle.gq_faults.specs.declared.report_error.ReportError.TheVariants.{Memory};

    ghost from_gives = { λ _ e. e ≡ Memory };

    fn from(_failed: AllocError) -> ReportError {
        ReportError::Memory
    }
}

impl<T: Drop> From<AllocFailed<T>> for ReportError {
    ghost use Rattle.gq_faults.specs.declared.report_error.ReportError.TheVariants.{Memory};

    ghost from_gives = { λ _ e. e ≡ Memory };

    fn from(_failed: AllocFailed<T>) -> ReportError {
        ReportError::Memory
    }
}

impl From<WriteFault> for ReportError {
    ghost use Rattle.gq_faults.specs.declared.report_error.ReportError.TheVariants.{Write};

    ghost from_gives = { λ _ e. e ≡ Write };

    fn from(_failed: WriteFault) -> ReportError {
        ReportError::Write
    }
}
