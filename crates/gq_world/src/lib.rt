//! Worlds: scenarios loaded, turns taken and texts written.
//!
//! ```rust
//! use gq_world::world::World;
//! use gq_output::counted::Counted;
//!
//! let mut world = World::load(alloc, scenario)?;
//! let mut out = Counted::new(writer);
//! if let Some(hello) = world.leaf(b"hello") {
//!     world.turn(hello, &mut out)?;
//! }
//! ```
#![tactic(auto)]

pub mod account_lines;
pub mod leaf_lines;
pub mod load;
mod node_accounts;
pub mod run;
mod step_budgets;
mod to_rest;
pub mod world;

pub use gq_machine::{event, input_settings, submitted_signals};
pub use gq_output::counted::Counted;
pub use gq_output::{account_report, counted};
pub use gq_reports::{RunFault, asm, check};
