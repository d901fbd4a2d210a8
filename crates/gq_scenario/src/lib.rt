//! Scenarios as trees of components, and how a TOML document is read as one: the definitions, in `specs/`.
//!
//! ```rust
//! use gq_scenario::text_pieces::next_line;
//! use gq_scenario::scenario::Quantum;
//!
//! let quantum = Quantum::new(4096, 2);
//! assert_eq!(rt; quantum.caps(), 2);
//! // The lines of a text of turns, one after the other.
//! assert_eq!(rt; next_line(b"hello 2\nhello 1"), (b"hello 2", Some(b"hello 1")));
//! ```
#![tactic(auto)]

pub mod component_tree;
pub mod key;
pub mod leaf_positions;
pub mod node_numbers;
pub mod scenario;
pub mod scenario_fault;
pub mod source;
pub mod text_pieces;
pub mod without_quantities;
