//! The ways in which a run of an accepted scenario can end, and the turns that lead to each.
//!
//! These are all ways if the inputs of all leaves are 0, no signal is submitted, and the search takes at most 10,000,000 turns. If it would take more, the text
//! says so, and there may be more outcomes.
//!
//! ```rust
//! use gq_outcomes::outcomes::{outcome_turns, outcomes};
//! use gq_output::counted::Counted;
//!
//! let mut out = Counted::new(writer);
//! // What leaves that provide nothing wrote, and the account lines, of each outcome.
//! outcomes(alloc, scenario, &mut out)?;
//! // The turns with which the second one was found.
//! outcome_turns(alloc, scenario, 2, &mut out)?;
//! ```
//!
//! A server is racy if it is shared and what its sections do may depend on the order of its requests (`racy`). A leaf stands at a choice if its next statement
//! makes a request to a racy server (`choices`). All other turns are taken first, which settles a world (`walk`). The search takes choices in each order, depth
//! first (`search`). It goes into no world a second time. Two worlds are one if their keys are equal: bytes that leave out the numbers of sessions (`key`). To
//! come back to a world, a walk takes its turns again from the start.
#![tactic(auto)]

mod asks;
mod choices;
mod encoding;
mod key;
pub mod laws;
pub mod outcomes;
mod racy;
mod search;
mod slot_key;
mod statement_key;
mod text;
mod walk;
