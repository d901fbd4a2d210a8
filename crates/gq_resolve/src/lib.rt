//! Scenarios resolved: quanta that fit, offers of what is served, leaves that start after others, which leaf serves each service, and one table of the nodes.
//!
//! ```rust
//! use gq_resolve::component::components;
//! use gq_resolve::node_table::Entries;
//! use gq_resolve::{NodeTable, resolve};
//!
//! // A scenario from `gq_reader`, and the program of each leaf, in preorder.
//! let routes = resolve(alloc, &scenario, programs.as_slice())?;
//! let components = components(alloc, &scenario)?;
//! // One table of the nodes by numbers, of which what runs and reports a scenario asks without looking for a name.
//! let entries = Entries::of(alloc, &scenario, components.as_slice(), &routes)?;
//! let table = NodeTable::new(scenario, programs, entries);
//! let hello = table.leaf_named(b"hello");
//! ```
//!
//! Modules: routes (`routing`, `routes`), what inits offer (`offers`), what is wrong with a scenario (`resolved`), and the table of nodes (`node_table`).
#![tactic(auto)]

pub mod component;
pub mod cycle;
mod leaf_levels;
pub mod leaf_names;
pub mod node_table;
pub mod offers;
pub mod opened_services;
pub mod quanta;
pub mod resolve_fault;
pub mod resolved;
pub mod router;
pub mod routes;
pub mod routing;
mod search_keys;
pub mod start_after;
pub mod unrouted;

pub use node_table::NodeTable;
pub use resolved::{resolve, resolve_components, resolve_opened};
