// Why a scenario is not resolved.
ghost use Rattle.std.specs.Prelude.{◌≡◌, ◌++◌, Some, MatchOption, alloc_error, codes};
ghost use Rattle.gq_model.specs.texts.Fault_texts.{unresolved_text};
ghost use Rattle.gq_resolve.specs.Resolve_faults.{fault_of};

use gq_model::program::Name;
use std::alloc::{AllocError, AllocFailed};
use std::fmt::{self, Debug, Display, Formatter, Write};
use thiserror::Error;

/// Why a scenario is not resolved, with the init or the leaf.
#[derive(Drop)]
pub enum ResolveFault {
    /// No route leads from this leaf for a service that it opens.
    NoRoute { leaf: Name, service: Name },
    /// A service that this leaf opens may be any child's, and several serve it.
    Ambiguous { leaf: Name, service: Name },
    /// This leaf reaches itself by the servers of the services that are opened.
    Cycle(Name),
    /// This init hands out more bytes of RAM at the start than it has.
    QuantaExceed(Name),
    /// The child to which a route leads this leaf for a service that it opens does not serve it.
    ProvidesDiffers { leaf: Name, service: Name },
    /// This init offers a service that has no interface, or that the child which is named does not serve.
    BadOffer(Name),
    /// This leaf starts after one that it may not start after.
    BadAfter(Name),
    /// This init hands out more capabilities at the start than it has.
    CapsExceed(Name),
}

/// Why a scenario has no routes.
#[derive(Debug, Drop, Error)]
pub enum ResolveError {
    /// The host has no memory left.
    #[error("host memory refused")]
    Memory(AllocError),
    /// The scenario has a fault.
    #[error("{0}")]
    Fault(ResolveFault),
}

impl From<AllocError> for ResolveError {
    ghost use Rattle.gq_resolve.specs.declared.resolve_fault.ResolveError.TheVariants.{Memory};

    ghost from_gives = { λ _ e. e ≡ Memory alloc_error };

    fn from(_failed: AllocError) -> ResolveError {
        ResolveError::Memory(AllocError)
    }
}

impl<T: Drop> From<AllocFailed<T>> for ResolveError {
    ghost use Rattle.gq_resolve.specs.declared.resolve_fault.ResolveError.TheVariants.{Memory};

    ghost from_gives = { λ _ e. e ≡ Memory alloc_error };

    fn from(_failed: AllocFailed<T>) -> ResolveError {
        ResolveError::Memory(AllocError)
    }
}

impl From<ResolveFault> for ResolveError {
    ghost use Rattle.gq_resolve.specs.declared.resolve_fault.ResolveError.TheVariants.{Fault};

    ghost from_gives = { λ fault e. e ≡ Fault fault };

    fn from(fault: ResolveFault) -> ResolveError {
        ResolveError::Fault(fault)
    }
}

impl ResolveFault {
    // The words before the name, the name, and the service where it reports one.
    fn parts(&self) -> (&'static str, &Name, Option<&Name>)
        ensures { MatchOption result.2 (unresolved_text (fault_of self.now) ≡ result.0.now ++ result.1.now)
            (λ service. unresolved_text (fault_of self.now) ≡ result.0.now ++ (result.1.now ++ (codes " " ++ service.now))) }
    {
        match self {
            ResolveFault::NoRoute { leaf, service } => ("S8 NoRoute ", leaf, Some(service)),
            ResolveFault::Ambiguous { leaf, service } => ("S9 Ambiguous ", leaf, Some(service)),
            ResolveFault::Cycle(leaf) => ("S10 Cycle ", leaf, None),
            ResolveFault::QuantaExceed(init) => ("S11 QuantaExceed ", init, None),
            ResolveFault::ProvidesDiffers { leaf, service } => {
                ("S12 ProvidesDiffers ", leaf, Some(service))
            }
            ResolveFault::BadOffer(init) => ("S15 BadOffer ", init, None),
            ResolveFault::BadAfter(leaf) => ("S13 BadAfter ", leaf, None),
            ResolveFault::CapsExceed(init) => ("S14 CapsExceed ", init, None),
        }
    }
}

impl Display for ResolveFault {
    ghost output = { λ fault. Some (unresolved_text (fault_of fault)) };

    fn fmt<W: Write>(&self, f: &mut Formatter<W>) -> fmt::Result {
        let (words, name, service) = self.parts();
        match service {
            Some(service) => write!(f, "{words}{} {}", name.as_str(), service.as_str()),
            None => write!(f, "{words}{}", name.as_str()),
        }
    }
}

impl Debug for ResolveFault {
    fn fmt<W: Write>(&self, f: &mut Formatter<W>) -> fmt::Result {
        Display::fmt(self, f)
    }
}
