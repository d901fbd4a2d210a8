//! What slots hold, as far as it is known before a program runs: kinds, and banks of slots.
//!
//! ```rust
//! use gq_caps::{Bank, Kind};
//! use gq_model::program::Form;
//!
//! let mut bank = Bank::<64>::new();
//! bank.set(3, Kind::memory(Form::Space, 4097));
//! assert_eq!(rt; bank.cost().ram, 8192);
//! ```
#![tactic(auto)]

mod bank;
mod kind;
mod kinds;
mod link;
mod links;
mod totals;

pub use bank::Bank;
pub use kind::Kind;
pub use kinds::are_same;
pub use link::Link;
pub use totals::{Measure, Totals};
