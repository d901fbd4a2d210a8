// Why a text is no scenario.
ghost use Rattle.std.specs.Prelude.{◌≡◌, Some, alloc_error};
ghost use Rattle.gq_scenario.specs.Fault_words.{scenario_fault_text};

use crate::key::Key;
use gq_model::program::Name;
use std::alloc::{AllocError, AllocFailed};
use std::fmt::{self, Debug, Display, Formatter, Write};
use thiserror::Error;

/// What is wrong with a text that is to be a scenario.
#[derive(Drop)]
pub enum ScenarioFault {
    /// The text is no TOML document.
    NotToml,
    /// A required key is missing.
    MissingKey(Key),
    /// The value at a key is bad, or the key can not stand beside another.
    BadValue(Key),
    /// A key that its table does not have. It is reported where another table has it.
    UnknownKey(Option<Key>),
    /// A name stands twice, or is `init`, which is the root's.
    NameTwice(Name),
    /// The text is longer than 1 MiB, or there are too many leaves.
    TooMany,
    /// A node is below depth 4. It is reported where its name is one.
    TooDeep(Option<Name>),
}

/// Why there is no scenario.
#[derive(Debug, Drop, Error)]
pub enum ScenarioError {
    /// The host has no memory left.
    #[error("host memory refused")]
    Memory(AllocError),
    /// The text has a fault.
    #[error("{0}")]
    Fault(ScenarioFault),
}

impl From<AllocError> for ScenarioError {
    ghost use Rattle.gq_scenario.specs.declared.scenario_fault.ScenarioError.TheVariants.{Memory};

    ghost from_gives = { λ _ e. e ≡ Memory alloc_error };

    fn from(_failed: AllocError) -> ScenarioError {
        ScenarioError::Memory(AllocError)
    }
}

impl<T: Drop> From<AllocFailed<T>> for ScenarioError {
    ghost use Rattle.gq_scenario.specs.declared.scenario_fault.ScenarioError.TheVariants.{Memory};

    ghost from_gives = { λ _ e. e ≡ Memory alloc_error };

    fn from(_failed: AllocFailed<T>) -> ScenarioError {
        ScenarioError::Memory(AllocError)
    }
}

impl Display for ScenarioFault {
    ghost output = { λ fault. Some (scenario_fault_text fault) };

    fn fmt<W: Write>(&self, f: &mut Formatter<W>) -> fmt::Result {
        match self {
            ScenarioFault::NotToml => f.write_str("S1 NotToml"),
            ScenarioFault::MissingKey(key) => write!(f, "S2 MissingKey {key}"),
            ScenarioFault::BadValue(key) => write!(f, "S3 BadValue {key}"),
            ScenarioFault::UnknownKey(Some(key)) => write!(f, "S4 UnknownKey {key}"),
            ScenarioFault::UnknownKey(None) => f.write_str("S4 UnknownKey ?"),
            ScenarioFault::NameTwice(name) => write!(f, "S5 NameTwice {}", name.as_str()),
            ScenarioFault::TooMany => f.write_str("S6 TooMany"),
            ScenarioFault::TooDeep(Some(name)) => write!(f, "S7 TooDeep {}", name.as_str()),
            ScenarioFault::TooDeep(None) => f.write_str("S7 TooDeep ?"),
        }
    }
}

impl Debug for ScenarioFault {
    fn fmt<W: Write>(&self, f: &mut Formatter<W>) -> fmt::Result {
        Display::fmt(self, f)
    }
}
