//! How a command ends: its text is written whole, or a fault says why it is not. And the commands that take no turn: `check` and `asm`.
#![tactic(auto)]

pub mod asm;
pub mod check;
pub mod command_text;
pub mod run_fault;

pub use run_fault::RunFault;
