//! All that is wrong with a scenario and its turns, as far as it can be reported at once, each fault with its place in the file and what was compared.
//!
//! ```rust
//! use gq_faults::faults::{File, faults};
//! use gq_output::counted::Counted;
//!
//! let mut out = Counted::new(writer);
//! // A line for each fault, `echo.toml:31:3: cli: V12 ShortDonation in main at 1`, and its details below it; nothing where there is none.
//! let refused = faults(alloc, File { path: "echo.toml", text: scenario }, &mut out)?;
//! ```
//!
//! The faults are those of the first stage that has any (`specs/Faults`); the first of them is the one that `check` prints (`fault_laws`). There are three
//! kinds.
//!
//! - Faults of a document (`document_faults`, by `document_walk`, `table_faults`, `document_nodes`, `counts` and `repeated_names`) are written as they are
//! found.
//! - Faults of a scenario that was read (`stages`) are few. They are values first, each with the line that `check` prints, a way into the document (`path`),
//! and what was compared (`fault_value`). First come the first fault of each program's text or code, and then the rule that each program breaks first
//! (`sources`,
//! with `program_lines` and `leaf_tables`). Then come quanta, offers, leaves that start after others, routes and cycles (`quantum_faults`, `offer_faults`,
//! `start_after_faults`, `route_faults`), and last
//!   budgets (`budget_faults`). Just the lines of the definition are found (`specs/Scenario_faults`), in its order.
//! - Faults of turns (`turn_faults`).
//!
//! Some modules find details alone. What a rule for programs compared is looked up once more where it is broken (`compared`, by `statement`, `session_cost` and
//! `pushers`). `text_faults` finds the wrong word on a line of a program's text, and `hops` how a service is led. `meant` has the near words of all of them.
//!
//! Words are put together last (`details`, by `value_words`, `text_details`, `route_details` and `turn_details`); each detail is a line of its own
//! (`specs/Details`).
//! Places come from `gq_toml_places` (`fault_lines`, `byte_columns`).
#![tactic(auto)]

mod budget_faults;
mod byte_columns;
pub mod compared;
mod counts;
pub mod details;
mod document_faults;
mod document_nodes;
mod document_walk;
pub mod fault_laws;
mod fault_lines;
pub mod fault_value;
pub mod faults;
mod hops;
mod leaf_tables;
mod meant;
mod offer_faults;
pub mod path;
mod program_lines;
mod pushers;
mod quantum_faults;
mod repeated_names;
pub mod report_error;
mod route_details;
mod route_faults;
mod session_cost;
mod sources;
pub mod stages;
mod start_after_faults;
mod statement;
mod table_faults;
mod text_details;
mod text_faults;
mod turn_details;
pub mod turn_faults;
pub mod value_words;
