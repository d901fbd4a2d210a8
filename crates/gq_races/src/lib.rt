//! What the outcome of an accepted scenario could depend on: the turns, when inputs are set, and when signals are submitted.
//!
//! ```rust
//! use gq_races::races::races;
//! use gq_output::counted::Counted;
//!
//! let mut out = Counted::new(writer);
//! // The leaves that have any, with the lines of their statements.
//! races(alloc, scenario, &mut out)?;
//! ```
//!
//! A leaf has an owner if all sessions with it are opened in `main` of that one leaf, or in other sections of leaves that have the same owner. A leaf with
//! which sessions are opened is shared if it has none: its sections may run for several threads. A race is a statement of a shared leaf, outside `main`, that
//! changes an own slot, what is in it or what is behind it. An order is a statement of a shared leaf, outside `main`, that writes a line. An input is an `in`,
//! in any section of any leaf: what it reads depends on when the input was set. Each section that a signal begins is reported as well (`specs/Races`). It is
//! of the same thread as `main`. `gq_determined` states what does not depend on the turns. What is asked of a leaf is asked of the table of nodes, by the
//! leaf's number (`TableLeaf` of `gq_views`).
#![tactic(auto)]

mod conflicts;
pub mod effects;
mod openers;
mod opens;
mod owners;
pub mod races;
mod statement_prefix;
