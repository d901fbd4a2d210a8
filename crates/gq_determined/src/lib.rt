//! Which outcomes of a scenario depend neither on the turns nor on inputs and signals, and which reactions do not depend on the turns: theorems over
//! definitions alone, the contracts of calls that do nothing.
//!
//! ```rust
//! use gq_determined::determined::determined_laws;
//! use gq_determined::synchronous::synchronous_laws;
//!
//! // From here on the proof of this function knows of any two runs of a scenario of which `races` reports nothing.
//! determined_laws();
//! // And of any two runs that follow the same settings and signals in a world at rest, if it reports no race.
//! synchronous_laws();
//! ```
#![tactic(auto)]

pub mod determined;
pub mod ownership;
pub mod synchronous;
