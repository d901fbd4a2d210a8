// Why a text is refused.
ghost use Rattle.std.specs.Prelude.{◌≡◌};
ghost use Rattle.gq_asm.specs.declared.asm_fault.LineError.TheVariants.{Memory, Fault};
ghost use Rattle.gq_asm.specs.declared.asm_fault.AssembleError.TheVariants as assemble;
ghost use Rattle.gq_asm.specs.Assembly_faults.{on_line};

use gq_model::fault::TextFault;
use std::alloc::{AllocError, AllocFailed};
use thiserror::Error;

/// Why a text is no program.
#[derive(Debug, Drop, Error)]
pub enum AssembleError {
    /// Host memory was refused.
    #[error("host memory refused")]
    Memory(AllocError),
    /// The first fault of the text, and the number of its line, from 1.
    #[error("{fault} line {line}")]
    Fault { fault: TextFault, line: u64 },
}

/// Why a line is refused.
#[derive(Drop)]
pub enum LineError {
    /// Host memory was refused.
    Memory,
    /// The line's first fault.
    Fault(TextFault),
}

impl From<AllocError> for LineError {
    ghost from_gives = { λ _ e. e ≡ Memory };

    fn from(_e: AllocError) -> LineError {
        LineError::Memory
    }
}

impl<T: Drop> From<AllocFailed<T>> for LineError {
    ghost from_gives = { λ _ e. e ≡ Memory };

    fn from(_e: AllocFailed<T>) -> LineError {
        LineError::Memory
    }
}

impl From<TextFault> for LineError {
    ghost from_gives = { λ f e. e ≡ Fault f };

    fn from(fault: TextFault) -> LineError {
        LineError::Fault(fault)
    }
}

impl LineError {
    /// The same as the fault of a text, at this line.
    pub fn on_line(self, line: u64) -> AssembleError
        ensures { result ≡ on_line line self }
    {
        match self {
            LineError::Memory => AssembleError::Memory(AllocError),
            LineError::Fault(fault) => AssembleError::Fault { fault, line },
        }
    }
}

impl From<AllocError> for AssembleError {
    ghost from_gives = { λ e r. r ≡ assemble.Memory e };

    fn from(e: AllocError) -> AssembleError {
        AssembleError::Memory(e)
    }
}
