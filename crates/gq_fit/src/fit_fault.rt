// Why no fitted scenario is written.
ghost use Rattle.std.specs.Prelude.{◌≡◌, Some};
ghost use Rattle.gq_fit.specs.Fit_words.{fit_fault_text, misfit_text, no_fit_text, short_text};

use gq_load::load_fault::{LoadError, LoadFault};
use gq_model::program::Name;
use gq_scenario::key::Key;
use std::alloc::{AllocError, AllocFailed};
use std::error::Error;
use std::fmt::{self, Debug, Display, Formatter, Write};

/// Why the least quantities of a scenario can't stand in its text.
#[derive(Drop)]
pub enum Misfit {
    /// A key that is not written has to be, for what bears this name.
    NoPlace {
        key: Key,
        name: Name,
    },
    /// The least number is none that the key takes. It is nothing where no number is enough.
    TooLarge {
        key: Key,
        name: Name,
        least: Option<u64>,
    },
    /// What was made is refused.
    Refused(LoadFault),
    /// What was made is no scenario with the least quantities.
    Differs,
}

/// Why a scenario has no fit.
#[derive(Drop)]
pub enum NoFit {
    /// Sessions of this interface hold one another without end, so that no donation is enough.
    Endless(Name),
    /// The program of this leaf is given as code.
    Code(Name),
    /// Its least quantities can't stand in its text.
    Misfit(Misfit),
}

/// Why no text is made of a scenario's.
#[derive(Drop)]
pub enum MakeError {
    /// The least quantities can't stand in it.
    Misfit(Misfit),
    /// The host has no memory left.
    Memory,
}

impl From<AllocError> for MakeError {
    ghost use Rattle.gq_fit.specs.declared.fit_fault.MakeError.TheVariants.{Memory};

    ghost from_gives = { λ _ error. error ≡ Memory };

    fn from(_refused: AllocError) -> MakeError {
        MakeError::Memory
    }
}

impl<T: Drop> From<AllocFailed<T>> for MakeError {
    ghost use Rattle.gq_fit.specs.declared.fit_fault.MakeError.TheVariants.{Memory};

    ghost from_gives = { λ _ error. error ≡ Memory };

    fn from(_refused: AllocFailed<T>) -> MakeError {
        MakeError::Memory
    }
}

impl From<Misfit> for MakeError {
    ghost use Rattle.gq_fit.specs.declared.fit_fault.MakeError.TheVariants as errors;

    ghost from_gives = { λ reason error. error ≡ errors.Misfit reason };

    fn from(reason: Misfit) -> MakeError {
        MakeError::Misfit(reason)
    }
}

/// Why a fitted scenario is not written to its end.
#[derive(Drop)]
pub enum FitFault {
    /// The scenario is refused by a rule that no quantity decides.
    Load(LoadFault),
    /// Some `open` statements give less than a session needs: their lines, as `size` prints them.
    Short(Vec<u8>),
    /// It has no fit.
    NoFit(NoFit),
    /// The host has no memory left.
    Memory,
    /// A write failed. A prefix of the text went out.
    Write,
}

impl From<AllocError> for FitFault {
    ghost use Rattle.gq_fit.specs.declared.fit_fault.FitFault.TheVariants.{Memory};

    ghost from_gives = { λ _ fault. fault ≡ Memory };

    fn from(_refused: AllocError) -> FitFault {
        FitFault::Memory
    }
}

impl From<LoadError> for FitFault {
    ghost use Rattle.gq_fit.specs.Fitted.{fit_fault_of};

    ghost from_gives = { λ error fault. fault ≡ fit_fault_of error };

    fn from(error: LoadError) -> FitFault {
        match error {
            LoadError::Memory => FitFault::Memory,
            LoadError::Fault(fault) => FitFault::Load(fault),
        }
    }
}

impl From<MakeError> for FitFault {
    ghost use Rattle.gq_fit.specs.Fitted.{made_fault_of};

    ghost from_gives = { λ error fault. fault ≡ made_fault_of error };

    fn from(error: MakeError) -> FitFault {
        match error {
            MakeError::Misfit(reason) => FitFault::NoFit(NoFit::Misfit(reason)),
            MakeError::Memory => FitFault::Memory,
        }
    }
}

/// The lines of a text without the last line feed.
fn without_feed(lines: &[u8]) -> &str
    ensures { result.now ≡ short_text lines.now }
{
    match str::from_utf8(&lines[..lines.len().saturating_sub(1)]) {
        Ok(lines) => lines,
        Err(_) => "short",
    }
}

impl Display for Misfit {
    ghost output = { λ reason. Some (misfit_text reason) };

    fn fmt<W: Write>(&self, f: &mut Formatter<W>) -> fmt::Result {
        match self {
            Misfit::NoPlace { key, name } => write!(f, "no place for {key} of {}", name.as_str()),
            Misfit::TooLarge {
                key,
                name,
                least: Some(least),
            } => write!(f, "too large {key} of {} least {least}", name.as_str()),
            Misfit::TooLarge {
                key,
                name,
                least: None,
            } => write!(f, "too large {key} of {} least none", name.as_str()),
            Misfit::Refused(fault) => write!(f, "the fitted text is refused: {fault}"),
            Misfit::Differs => f.write_str("the fitted text has other quantities"),
        }
    }
}

impl Display for NoFit {
    ghost output = { λ reason. Some (no_fit_text reason) };

    fn fmt<W: Write>(&self, f: &mut Formatter<W>) -> fmt::Result {
        match self {
            NoFit::Endless(name) => write!(f, "none for {}", name.as_str()),
            NoFit::Code(leaf) => write!(f, "code of {}", leaf.as_str()),
            NoFit::Misfit(reason) => write!(f, "{reason}"),
        }
    }
}

impl Display for FitFault {
    ghost output = { λ fault. Some (fit_fault_text fault) };

    fn fmt<W: Write>(&self, f: &mut Formatter<W>) -> fmt::Result {
        match self {
            FitFault::Load(fault) => write!(f, "{fault}"),
            FitFault::Short(lines) => write!(f, "no fit\n{}", without_feed(lines.as_slice())),
            FitFault::NoFit(reason) => write!(f, "no fit\n{reason}"),
            FitFault::Memory => f.write_str("host memory refused"),
            FitFault::Write => f.write_str("file fault"),
        }
    }
}

impl Debug for Misfit {
    fn fmt<W: Write>(&self, f: &mut Formatter<W>) -> fmt::Result {
        Display::fmt(self, f)
    }
}

impl Debug for NoFit {
    fn fmt<W: Write>(&self, f: &mut Formatter<W>) -> fmt::Result {
        Display::fmt(self, f)
    }
}

impl Debug for FitFault {
    fn fmt<W: Write>(&self, f: &mut Formatter<W>) -> fmt::Result {
        Display::fmt(self, f)
    }
}

impl Error for Misfit {}

impl Error for NoFit {}

impl Error for FitFault {}
