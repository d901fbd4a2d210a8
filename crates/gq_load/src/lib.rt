//! Loading: from the text of a scenario to an accepted scenario with its programs, its routes and its budgets.
//!
//! ```rust
//! use gq_load::accepted::Accepted;
//! use gq_load::checked::checked_lines;
//!
//! let accepted = Accepted::read(alloc, text)?;
//! let (table, budgets) = accepted.into_parts();
//! // The lines of the budgets alone, for which no program has to stay.
//! let lines = checked_lines(alloc, text)?;
//! ```
//!
//! A scenario that is loaded is sound, so that the laws of sound scenarios hold of every run of it (`loaded`); `read` says what holds of each that is read.
//!
//! ```rust
//! use gq_load::loaded::loaded_laws;
//!
//! // From here on the proof of this function knows of the scenario of any text that is loaded.
//! loaded_laws();
//! ```
//!
//! Modules: loading (`accepted`, `checked`), what a signal takes of all leaves (`signal_lines`), and laws of what is loaded (`loaded`, `read`).
#![tactic(auto)]

pub mod accepted;
pub mod budget;
mod budget_lines;
pub mod checked;
pub mod leaf_programs;
pub mod load_fault;
pub mod loaded;
pub mod named;
pub mod over;
mod program_verdict;
pub mod read;
pub mod signal_lines;
pub mod surveys;
pub mod unsized_scenarios;
pub mod unverified;
