//! The command line of `trade`, apart from what its commands do: which command its words name, what is read of its inputs, and the status it ends with.
//!
//! ```rust
//! use gq_command::command::{Command, ScenarioCommand};
//! use gq_command::command_line::command;
//! use gq_command::input::read_input;
//! use gq_command::stored::parted;
//!
//! let command = command(rt.alloc(), &["check", "hello.toml"])?;
//! assert!(rt; matches!(command, Command::OfScenario(ScenarioCommand::Check, _)));
//! // An input is read whole, up to a limit; the stored form of a run has two parts.
//! let input = read_input(rt.alloc(), &mut rt.stdin())?;
//! let (scenario, turns) = parted(input.as_slice());
//! ```
//!
//! Modules: words (`entries` with a line for each command, `command_line`, and `misuse` for wrong ones), and inputs (`input`, `stored`).
#![tactic(auto)]

pub mod command;
pub mod command_line;
mod entries;
pub mod input;
mod misuse;
pub mod status;
pub mod stored;
