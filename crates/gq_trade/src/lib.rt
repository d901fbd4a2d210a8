//! Accounts that trade: sessions between the leaves of a scenario, whose donations move quota along the tree, and leaves that start and end.
//!
//! [`Trades`] is what the crates above use. It stands on these:
//!
//! - [`Numbered`]: values by their numbers, where a new one takes the lowest that is free.
//! - `requests`: what waits for a server, the oldest first.
//! - `trade_node`: what is known of a node beside its account.
//!
//! ```rust
//! use gq_trade::SlotId;
//! use gq_tariff::Amount;
//! use gq_trade::{NodeState, Plan, Stage, Trades};
//!
//! // A root with a server and a client below it.
//! let quanta = [65536, 4096, 16384];
//! let mut nodes = Vec::new(rt.alloc());
//! for ram in quanta {
//!     nodes.push(NodeState { quantum: Amount { ram, caps: 0 }, after: None, stage: Stage::Live })?;
//! }
//! let plan = Plan {
//!     parents: vec![in rt.alloc(); 0, 0, 0]?,
//!     nodes,
//!     leaves: vec![in rt.alloc(); 1, 2]?,
//!     objects: vec![in rt.alloc(); 100]?,
//! };
//! let mut trades = Trades::new(rt.alloc(), 65536, None, plan, 24)?;
//! let session = trades.ask(1, SlotId::InLeaf(1, 0), 0, 0, Amount { ram: 8192, caps: 0 })?;
//! assert_eq!(rt; trades.quota(1), 12288);
//! trades.accept(0)?;
//! assert_eq!(rt; trades.used(1), 4096);
//! ```
//!
//! Three parts of trade stand above, beside the slots that they change:
//!
//! - The slots of leaves and sessions (`put`, `clear`, `kind`, `handle`): `Slots` of `gq_slots`.
//! - The end of a leaf with all that it holds (`end`): `gq_slots::ending_leaves`.
//! - Memory by address (`load`, `store`): `gq_region::region_addresses`.
//!
//! `Trades::new` makes room for sessions and requests, as much as its caller says, and who asks shows that there is room. As many sessions as pages and one
//! for each leaf are enough. That is an invariant of the machine, which knows that an accepted session costs a page.
#![tactic(auto)]

pub mod numbered_values;
pub mod requests;
pub mod session;
pub mod trade_node;
pub mod trades;

pub use numbered_values::Numbered;
pub use requests::{Ask, Request};
pub use session::{Session, SlotId};
pub use trade_node::{NodeState, Stage};
pub use trades::{Plan, Trades};
