//! Sizes and prices: what a component pays, in bytes and in capabilities, for the memory that it holds, and how a
//! quantity of bytes is written.
//!
//! ```rust
//! use gq_tariff::price::{price_block, price_slice, round_up};
//! use gq_tariff::quantity::read_quantity;
//!
//! assert_eq!(rt; read_quantity(b"64K"), Ok(65536));
//! assert_eq!(rt; round_up(4097), 8192);
//! assert_eq!(rt; price_slice(4064), 4096);
//! assert_eq!(rt; price_block(2049), 4096);
//! ```
#![tactic(auto)]

pub mod amount;
pub mod class;
pub mod price;
pub mod quantity;

pub use amount::{Amount, Resource};
pub use class::{Class, class_of};
pub use price::{
    Held, price_block, price_caps, price_class, price_pool_table, price_slice, round_up,
};
pub use quantity::{QuantityFault, read_quantity};
