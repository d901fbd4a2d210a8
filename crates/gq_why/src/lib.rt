//! What the numbers of a leaf are made of: what it uses of its own account, what its sessions need, its steps.
//!
//! ```rust
//! use gq_why::why::why;
//! use gq_output::counted::Counted;
//!
//! let mut out = Counted::new(writer);
//! // Each number, with the point where it is greatest, what is held there, and who asks how often.
//! why(alloc, scenario, "cli", &mut out)?;
//! ```
//!
//! It looks at the scenario without its quantities, whose points it sees by the verifier's walk (`greatest_points`).
//!
//! Modules: the first points at which numbers are greatest (`greatest_points`), with what slots hold (`point_lines`). What a leaf uses (`own_lines`), what its
//! sessions need (`need`), its steps (`step_sums`), all of it as a text (`why`), and that it adds up (`why_sum_laws`).
#![tactic(auto)]

mod greatest_points;
mod need;
mod own_lines;
mod point_lines;
mod step_sums;
pub mod why;
pub mod why_sum_laws;
