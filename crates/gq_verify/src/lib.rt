//! What is known of a program before it runs: whether it breaks a rule, what it holds at most, and how many steps and requests its sections make at most.
//!
//! ```rust
//! use gq_verify::verify;
//!
//! // A program from `gq_asm` or `gq_code` whose `main` has the statement `space o0 8192`, and the interfaces of its scenario. It provides no service,
//! // and has no inputs and no signals.
//! let verified = verify(&program, None, &interfaces, &[], 0)?;
//! assert_eq!(rt; verified.own(), 8192);
//! assert_eq!(rt; verified.cost(Section::Main), Some(2));
//! ```
//!
//! Modules: steps and requests (`section_steps`, `asked`), and the verdict (`verified`).
#![tactic(auto)]

mod asked;
mod asked_sections;
mod counting;
mod next;
mod own_use;
mod section_end_rules;
mod section_requests;
mod section_rules;
mod section_steps;
mod service;
mod sizes;
mod starts;
mod verified;
mod verify_fault;
mod visits;

pub use asked::{Asker, RequestCounts};
pub use section_steps::section_cost;
pub use service::Service;
pub use starts::Starts;
pub use verified::{Verified, verify};
pub use verify_fault::BrokenRule;
pub use visits::Visitor;
