// Why a text is not loaded.
ghost use Rattle.std.specs.Prelude.{◌≡◌, Some};
ghost use Rattle.gq_load.specs.Load_faults.{load_fault_text};

use gq_model::fault::{CodeFault, Rule, TextFault};
use gq_model::program::Name;
use gq_model::section::Section;
use gq_resolve::resolve_fault::{ResolveError, ResolveFault};
use gq_scenario::scenario_fault::ScenarioFault;
use std::alloc::{AllocError, AllocFailed};
use std::error::Error;
use std::fmt::{self, Debug, Display, Formatter, Write};

/// Why a text is not loaded.
#[derive(Drop)]
pub enum LoadFault {
    /// It is no scenario.
    Scenario(ScenarioFault),
    /// The text of a leaf's program has a fault on a line.
    Text {
        leaf: Name,
        fault: TextFault,
        line: u64,
    },
    /// The bytes of a leaf's code are no program.
    Code {
        leaf: Name,
        fault: CodeFault,
    },
    /// The program of a leaf breaks a rule, at a statement of a section, from 1; 0 is the section's start.
    Rule {
        leaf: Name,
        rule: Rule,
        section: Section,
        place: u64,
    },
    /// Quanta, leaves that start after others, or routes are not as they have to be.
    Resolve(ResolveFault),
    /// The program of a leaf uses more bytes of its own account than its quantum has.
    OverQuantum {
        leaf: Name,
        own: u64,
        quantum: u64,
    },
    /// A leaf may take more than 10^12 steps.
    OverSteps {
        leaf: Name,
    },
    /// The program of a leaf uses more capabilities of its own account than it is given.
    OverCaps {
        leaf: Name,
        own: u64,
        caps: u64,
    },
}

/// Why there is no accepted scenario.
#[derive(Drop)]
pub enum LoadError {
    /// Host memory was refused.
    Memory,
    /// The text has a fault.
    Fault(LoadFault),
}

impl From<AllocError> for LoadError {
    ghost use Rattle.gq_load.specs.declared.load_fault.LoadError.TheVariants.{Memory};

    ghost from_gives = { λ _ e. e ≡ Memory };

    fn from(_failed: AllocError) -> LoadError {
        LoadError::Memory
    }
}

impl<T: Drop> From<AllocFailed<T>> for LoadError {
    ghost use Rattle.gq_load.specs.declared.load_fault.LoadError.TheVariants.{Memory};

    ghost from_gives = { λ _ e. e ≡ Memory };

    fn from(_failed: AllocFailed<T>) -> LoadError {
        LoadError::Memory
    }
}

impl From<LoadFault> for LoadError {
    ghost use Rattle.gq_load.specs.declared.load_fault.LoadError.TheVariants.{Fault};

    ghost from_gives = { λ fault e. e ≡ Fault fault };

    fn from(fault: LoadFault) -> LoadError {
        LoadError::Fault(fault)
    }
}

impl From<ResolveError> for LoadError {
    ghost use Rattle.gq_load.specs.Load_faults.{load_error_of};

    ghost from_gives = { λ error e. e ≡ load_error_of error };

    fn from(error: ResolveError) -> LoadError {
        match error {
            ResolveError::Memory(_) => LoadError::Memory,
            ResolveError::Fault(fault) => LoadError::Fault(LoadFault::Resolve(fault)),
        }
    }
}

impl Display for LoadFault {
    ghost output = { λ fault. Some (load_fault_text fault) };

    fn fmt<W: Write>(&self, f: &mut Formatter<W>) -> fmt::Result {
        match self {
            LoadFault::Scenario(fault) => write!(f, "{fault}"),
            LoadFault::Text { leaf, fault, line } => {
                write!(f, "{}: {fault} line {line}", leaf.as_str())
            }
            LoadFault::Code { leaf, fault } => write!(f, "{}: {fault}", leaf.as_str()),
            LoadFault::Rule {
                leaf,
                rule,
                section,
                place,
            } => write!(f, "{}: {rule} in {section} at {place}", leaf.as_str()),
            LoadFault::Resolve(fault) => write!(f, "{fault}"),
            LoadFault::OverQuantum { leaf, own, quantum } => {
                let leaf = leaf.as_str();
                write!(f, "{leaf}: B1 OverQuantum own {own} quantum {quantum}")
            }
            LoadFault::OverSteps { leaf } => write!(f, "{}: B2 OverSteps", leaf.as_str()),
            LoadFault::OverCaps { leaf, own, caps } => {
                write!(f, "{}: B3 OverCaps own {own} caps {caps}", leaf.as_str())
            }
        }
    }
}

impl Debug for LoadFault {
    fn fmt<W: Write>(&self, f: &mut Formatter<W>) -> fmt::Result {
        Display::fmt(self, f)
    }
}

impl Error for LoadFault {}
