//! The command line of `trade`: which command its words name, what it reads, what the command writes, and the status it ends with.
//!
//! ```rust
//! use gq_cli::command_line::command;
//! use gq_cli::execute::execute;
//! use gq_cli::rules::families;
//!
//! let command = command(alloc, &["check", "hello.toml"])?;
//! let status = execute(alloc, &families(), &command, &mut scenario, &mut turns, &mut out, &mut err);
//! ```
#![tactic(auto)]

pub mod execute;
mod fit_command;
mod reader_turns;

pub use gq_command::{command, command_line, input, status, stored};
pub use gq_rule_texts as rules;
