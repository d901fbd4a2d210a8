//! The configuration of an init, as a run starts with it: a scenario that is read, its routes, and the turns, settings and signals of a text.
//!
//! ```rust
//! use gq_init::{NodeTable, read_turns};
//!
//! // The table of an accepted scenario, from `gq_load`.
//! let (table, _budgets) = accepted.into_parts();
//! let turns = read_turns(alloc, b"hello 2\n", &table)?;
//!
//! // From version 3 on a line may also set an input of a leaf, and from version 4 on submit one of its signals or bring all work to rest.
//! let acts = read_turns(alloc, b"pump.0 = 17\npump!0\nrest\n", &other)?;
//! ```
//!
//! Modules of its own: the turns, settings and signals of a text (`turns`, `turn_reader`), and a quick way from a name to its leaf (`name_index`). The others
//! hand on what reads a scenario (`reader`, `key`, `source`, `scenario`, `scenario_fault`, `node_numbers`) and what resolves it (`resolve`, `node_table`).
#![tactic(auto)]

mod item;
pub mod name_index;
mod settings;
mod signals;
mod turn_list;
pub mod turn_reader;
pub mod turns;

pub use gq_reader::{read_scenario, reader};
pub use gq_resolve::routes::Routes;
pub use gq_resolve::{NodeTable, node_table, resolve};
pub use gq_scenario::scenario::Scenario;
pub use gq_scenario::{key, node_numbers, scenario, scenario_fault, source};
pub use item::{TurnItem, line_turns};
pub use turn_reader::TurnReader;
pub use turns::read_turns;
