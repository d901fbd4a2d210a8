//! What is fixed once a scenario is loaded: the plan of its accounts, where the `open` statements of its leaves lead, which sections its programs have, and
//! what all services give their clients.
//!
//! ```rust
//! use gq_prepared::Services;
//! use gq_prepared::plan_of;
//! use gq_trade::Trades;
//!
//! // From the table of a scenario of version 1: the accounts of its nodes, with room for 64 sessions, and what its services give.
//! let plan = plan_of(alloc, &table)?;
//! let trades = Trades::new(alloc, table.scenario().total().ram(), None, plan, 64)?;
//! let services = Services::new(alloc, &table)?;
//! let object = services.object(0);
//! ```
//!
//! `quotas` and `ending_laws` are laws of the nodes: that stored balances are the accounts of the definition, and how the nodes go on where a leaf has ended.
//!
//! Modules: the plan of the accounts (`plans`), and what is fixed at load (`openings`, `program_sections`, `service_gifts`).
#![tactic(auto)]

pub mod ending_laws;
pub mod first_node_laws;
pub mod openings;
pub mod plans;
pub mod program_sections;
pub mod quotas;
pub mod service_gifts;

pub use openings::Opening;
pub use plans::plan_of;
pub use service_gifts::Services;
