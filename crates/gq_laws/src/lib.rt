//! Laws of the abstract machine: theorems over its definitions alone, each the contract of a call that does nothing.
//!
//! - `accepted_runs`, `reached`, `ready`, `room`, `statement_laws`, `turn_step_laws`: what holds of every world of a sound scenario, and of its runs;
//! - `progress`: no deadlock, and all work ends;
//! - `reactions`: how many steps a signal takes;
//! - `separation`: what joins no service with the rest is not touched by the rest's turns;
//! - `alone_groups`: such a group runs as if it were alone.
//!
//! ```rust
//! use gq_laws::accepted_runs::accepted_laws;
//!
//! // From here on the proof of this function knows of every run of a sound scenario.
//! accepted_laws();
//! ```
#![tactic(auto)]

pub mod accepted_runs;
pub mod alone_groups;
pub mod progress;
pub mod reached;
pub mod reactions;
pub mod ready;
pub mod room;
pub mod separation;
pub mod statement_laws;
pub mod turn_step_laws;
