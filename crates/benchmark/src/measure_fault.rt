// Why nothing was measured.
use gq_asm::AssembleError;
use gq_code::decode::DecodeError;
use gq_scenario::scenario_fault::ScenarioError;
use gq_store::GrowFault;
use gq_verify::BrokenRule;
use std::alloc::AllocError;
use std::io;
use thiserror::Error;

/// Why nothing was measured.
#[derive(Debug, Drop, Error)]
pub enum MeasureFault {
    #[error("the words are WORK and TIMES, and for some works SIZE")]
    Usage,
    #[error("host memory refused")]
    Memory(AllocError),
    #[error("{0}")]
    Io(io::Error),
    #[error("no program: {0}")]
    Text(AssembleError),
    #[error("no program: {0}")]
    Code(DecodeError),
    #[error("refused: {0}")]
    Refused(BrokenRule),
    #[error("no interfaces")]
    Interfaces,
    #[error("no scenario: {0}")]
    Scenario(ScenarioError),
    #[error("no account for it")]
    Account,
    #[error("{0}")]
    Grow(GrowFault),
}

impl From<AllocError> for MeasureFault {
    fn from(refused: AllocError) -> MeasureFault {
        MeasureFault::Memory(refused)
    }
}

impl From<io::Error> for MeasureFault {
    fn from(error: io::Error) -> MeasureFault {
        MeasureFault::Io(error)
    }
}

impl From<GrowFault> for MeasureFault {
    fn from(refused: GrowFault) -> MeasureFault {
        MeasureFault::Grow(refused)
    }
}
