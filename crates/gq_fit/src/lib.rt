//! Scenarios with the least quantities in place of their own, as texts: what stays of a text stays byte for byte.
//!
//! ```rust
//! use gq_fit::fit::{fit, fit_donations};
//! use gq_output::counted::Counted;
//!
//! let mut out = Counted::new(writer);
//! // The text of the scenario with its least quantities.
//! fit(alloc, scenario, &mut out)?;
//! // The same, with programs that give just what sessions need.
//! fit_donations(alloc, scenario, &mut out)?;
//! ```
//!
//! Both commands collect what changes: quantities (`quantity_edits`, by the places of `extent` and the words of `quantity_text`), and what programs give
//! (`giving`, `program_edits`, by the places of `string_letters`; `ways` lead to both). They make the new text of it (`edits`), by a lexer that knows where
//! values may change (`lexer`), and read that before they write it (`made`, `given`). With donations they compare the new scenario with the old one
//! (`refitted`, by `same_shape` and `same_programs`). The contract rests on the lexer and on this reading: `specs/Fitted`.
#![tactic(auto)]

mod edits;
mod extent;
pub mod fit;
pub mod fit_fault;
mod given;
mod giving;
mod lexer;
mod made;
mod program_edits;
mod quantity_edits;
mod quantity_text;
mod refitted;
mod same_programs;
mod same_shape;
mod string_letters;
mod ways;
