//! What a designer looks at: the text of a leaf's program, and an accepted scenario as a tree and as a graph.
//!
//! ```rust
//! use gq_views::list::list;
//! use gq_views::margin::Margin;
//! use gq_views::tree::tree;
//! use gq_output::counted::Counted;
//!
//! let mut out = Counted::new(writer);
//! // The program of a leaf, one statement a line.
//! list(alloc, scenario, "hello", Margin::Plain, &mut out)?;
//! // All nodes with their quanta, what each leaf uses, and whose services it opens.
//! tree(alloc, scenario, &mut out)?;
//! ```
//!
//! Each of these writes the text of its definition (`specs/Written`) and nothing else, and refuses what `check` and `asm` refuse.
//!
//! Modules: programs (`list`, `listing`, `numbered_listing`, `instruction_text`), scenarios (`tree`, `graph`), and what both need (`drawn`). What is asked of a
//! leaf of a loaded scenario is asked of the table of nodes, by the leaf's number (`table_leaf`).
#![tactic(auto)]

mod drawn;
pub mod graph;
pub mod instruction_text;
mod left;
pub mod list;
pub mod listing;
pub mod margin;
pub mod numbered_listing;
pub mod table_leaf;
pub mod tree;
pub mod view_laws;
pub mod view_words;
