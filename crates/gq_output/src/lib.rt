//! What a run prints: the lines that leaves write, those of accounts, and the writer that they go to, which counts its failures.
//!
//! ```rust
//! use gq_output::counted::{Counted, put};
//! use gq_output::leaf_line::text_line;
//!
//! let mut out = Counted::new(writer);
//! let line = text_line(b"init -> hello", b"hello");
//! put(&mut out, line.as_slice())?;
//! ```
//!
//! Modules: lines (`leaf_line`, `gathered_lines`, `account_line` of an `account_report`; `line` has what they are made of) and the writer (`counted`).
#![tactic(auto)]

pub mod account_line;
pub mod account_report;
pub mod counted;
pub mod gathered_lines;
pub mod leaf_line;
pub mod line;
