//! How much is enough: the least quantities under which a scenario is accepted, and the laws that say so.
//!
//! ```rust
//! use gq_sizes::least_size_laws::{least_laws, size_laws};
//! use gq_sizes::size::size;
//! use gq_output::counted::Counted;
//!
//! let mut out = Counted::new(writer);
//! // What each interface, leaf and init has, and what it needs at least.
//! size(alloc, scenario, &mut out)?;
//! // From here on the proof of this function knows that these quantities are the least ones, of scenarios and of texts.
//! least_laws();
//! size_laws();
//! ```
//!
//! `size` looks at the scenario without its quantities (`judged_scenario`), whose points it sees by the verifier's walk (`point_maxima`). The definitions are:
//!
//! - `specs/Size`: how much is needed,
//! - `specs/Endless`: where no number of capabilities is enough,
//! - `specs/Least`: the scenario with the least quantities in place of its own,
//! - `specs/Size_text`: the text, by that scenario,
//! - `specs/Least_numbers`: the numbers of that text, in lists,
//! - `specs/Gives`: statements that give just what the interfaces ask, and interfaces that ask just what sessions need,
//! - `specs/Donated`: what the statements are to give for that.
//!
//! Modules: least quantities (`needs`, `gifts`, `leaf_needs`) and their lines (`size`, by `interface_lines`, `shorts` and `node_lines`). What is least in
//! numbers (`leasts`, `donations`, `least_quantities`). Whether a scenario has the least quantities of another (`sized`, `same`), gives what its interfaces
//! ask, and asks what sessions need (`gives`).
#![tactic(auto)]

pub mod donations;
mod endless;
mod faultless_programs;
mod gifts;
pub mod gives;
mod interface_lines;
mod judged_scenario;
mod leaf_needs;
mod least_quantities;
pub mod least_size_laws;
pub mod leasts;
mod needs;
mod node_lines;
mod point_maxima;
mod quantity_lines;
pub mod same;
mod section_levels;
mod shorts;
pub mod size;
pub mod sized;
mod unending;
