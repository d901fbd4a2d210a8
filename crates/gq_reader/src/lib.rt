//! Scenarios, read from texts in TOML: the tables of a document with their rules, and the first fault of them.
//!
//! ```rust
//! use gq_reader::read_scenario;
//!
//! let scenario = read_scenario(alloc, text)?;
//! ```
//!
//! Modules: the keys of each table (`table_keys`), faults of tables (`rules`, `first_fault_walk`), and what is read (`reader`).
#![tactic(auto)]

pub mod document;
pub mod first_fault_walk;
pub mod hexadecimal;
mod interface_reading;
pub mod reader;
pub mod rules;
pub mod table_keys;
mod table_reading;
pub mod value;

pub use reader::read_scenario;
