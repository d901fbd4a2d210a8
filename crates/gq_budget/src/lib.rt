//! How many steps each leaf of a scenario may take, for the start and for each signal: how often each section of it runs, from what was counted of its program
//! and who may ask it, by the scenario's routes.
//!
//! ```rust
//! use gq_budget::steps_of;
//!
//! // What was counted of each leaf's program, in the order of the leaves, and the routes that were reported as the scenario was resolved.
//! let steps = steps_of(alloc, &scenario, &components, &routes, &counted)?;
//! ```
//!
//! Modules: steps along chains of use (`budgets`), for each signal (`signal_steps`), and by the routes of a scenario (`leaf_steps`).
#![tactic(auto)]

mod asks;
mod budget_leaf;
mod budgets;
mod cause;
mod counted_leaves;
mod leaf_steps;
mod number_sums;
mod rounds;
mod signal_steps;
mod step_budget;
mod use_levels;
mod uses;

pub use budget_leaf::BudgetLeaf;
pub use cause::Cause;
pub use counted_leaves::CountedLeaf;
pub use leaf_steps::{Times, steps_of, times_of};
pub use step_budget::StepBudget;
