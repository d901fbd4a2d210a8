//! RAM accounts: quota of bytes and of capabilities, traded between an account and its reference account, and dataspaces paid from it.
//!
//! ```rust
//! use gq_ram::Accounts;
//! use gq_tariff::Amount;
//!
//! let mut accounts = Accounts::new(rt.alloc(), 65536, None)?;
//! let root = accounts.root();
//! let account = accounts.add(accounts.root())?;
//! accounts.transfer(root, account, Amount { ram: 8192, caps: 0 })?;
//! let ds = accounts.alloc(account, 1)?;
//! assert_eq!(rt; accounts.used(account).ram, 4096);
//! accounts.close(account)?;
//! ```
//!
//! [`AccountTree`] has the accounts of a scenario's nodes: it hands quota down at the start, and moves it from one node to another hop by hop, through every
//! init on the way.
//!
//! ```rust
//! use gq_ram::AccountTree;
//! use gq_tariff::Amount;
//!
//! // The place of the node above each node in preorder; that of the root is not looked at.
//! let tree = AccountTree::open(alloc, &mut accounts, parents)?;
//! // What each node is handed by the node above it; the root node has its amount already.
//! tree.hand_out(&mut accounts, &handed);
//! tree.donate(&mut accounts, client, server, Amount { ram: 8192, caps: 1 })?;
//! ```
//!
//! Modules: accounts (`accounts`), which are a store of chunks (`account_store`), and the tree of nodes along which quota goes (`account_tree`, `opening`,
//! `handing`).
#![tactic(auto)]

mod account;
mod account_store;
pub mod account_tree;
mod accounts;
mod handing;
mod opening;

pub use account::{AccountFault, afford};
pub use account_tree::AccountTree;
pub use accounts::Accounts;
pub use gq_store::AccountNo;
