//! What a designer asks of runs. These are a list of turns that brings all work to rest, what each turn of a run did, what accounts are made of after it, and
//! the greatest use of each.
//!
//! ```rust
//! use gq_traces::peaks::peaks;
//! use gq_traces::account_state::state;
//! use gq_traces::step_output::Reporting;
//! use gq_traces::trace::trace;
//! use gq_traces::turn_schedule::turns;
//! use gq_output::counted::Counted;
//!
//! let mut out = Counted::new(writer);
//! // The turns that leaves take in rounds, until none can take one.
//! turns(alloc, scenario, None, &mut out)?;
//! // The steps of a run that change something beside registers and bytes.
//! trace(alloc, scenario, b"hello 2\n", Reporting::Changes, &mut out)?;
//! // What each account is made of after the last turn.
//! state(alloc, scenario, b"hello 2\n", None, &mut out)?;
//! // The greatest use of each account over the turns.
//! peaks(alloc, scenario, b"hello 2\n", &mut out)?;
//! ```
//!
//! Each of these writes the text of its definition (`specs/Written`) and nothing else, and refuses what `check` and `run` refuse.
//!
//! Module `numbered_program` has the statements of a program with their numbers, `tracker` where each leaf stands among them, and `alone_steps` steps of a leaf
//! in one go.
//! Module `noted` has what is noted of a world, and `session_lines` what of a session. Module `step_lines` prints a step, `setting_lines` a setting and
//! `signal_lines` a submitted signal, by `step_output`. `rests` finds the leaf that takes the next turns on the way to rest. `account_state` reports accounts,
//! by `items`, after turns that `follow` takes. `peaks` takes turns itself, since it shows no place in a program.
//!
//! Modules: lists of turns (`turn_schedule`, in rounds by `schedule`, by chance by `chance`), traces (`trace`, `step_lines`), states (`account_state`,
//! `items`), and `peaks`.
#![tactic(auto)]

pub mod account_state;
mod alone_steps;
mod chance;
mod follow;
mod items;
mod line_parts;
mod noted;
mod numbered_program;
pub mod peaks;
pub mod peaks_laws;
pub mod place_laws;
mod reactions;
mod rests;
mod schedule;
pub mod schedule_laws;
mod session_lines;
mod setting_lines;
mod signal_lines;
pub mod state_laws;
mod step_lines;
pub mod step_output;
pub mod trace;
pub mod trace_laws;
mod tracker;
pub mod turn_schedule;
