//! Runs with tests: of any scenario that is read and resolved, whether it is accepted or not, up to its first wrong step.
//!
//! ```rust
//! use gq_unverified::tested_run::run_unverified;
//!
//! if let Some(step) = run_unverified(alloc, scenario, turns, &mut out)? {
//!     println!(rt; "{step}")?;
//! }
//! ```
#![tactic(auto)]

pub mod step;
mod tested_rest;
pub mod tested_run;
mod tested_turns;
