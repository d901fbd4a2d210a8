//! The machine: runs the programs of leaves over their memory and sessions.
//!
//! ```rust
//! use arrayvec::ArrayVec;
//! use gq_machine::machine::Machine;
//!
//! // The table of a scenario that is read and resolved, from `gq_load`.
//! let mut machine = Machine::new(alloc, table)?;
//! let mut line = ArrayVec::new();
//! let event = machine.step_tested(leaf, &mut line);
//! ```
//!
//! Module `machine_state` has what is fixed at load and what changes. Modules `leaf_statements`, `donating_requests`, `taken_requests`, `taken_signals`,
//! `section_replies` and `main_end` have what each kind of step makes of it. Each is a step of the abstract machine that keeps what holds between two steps.
//! `machine_steps` has one turn of a leaf, `bursts` many of them in one go, and `output` the lines that they give. `input_settings` gives inputs other values,
//! and `submitted_signals` submits signals. `world_reads` has what is reported of leaves, sessions, requests and slots between two steps, and `contents` what
//! reports worlds apart beside.
#![tactic(auto)]

mod bursts;
pub mod contents;
pub mod donating_requests;
pub mod event;
pub mod input_settings;
pub mod leaf_statements;
mod leaf_turns;
pub mod machine;
pub mod machine_state;
mod machine_steps;
pub mod main_end;
mod others;
mod output;
pub mod section_replies;
pub mod submitted_signals;
pub mod taken_requests;
pub mod taken_signals;
pub mod world_reads;
