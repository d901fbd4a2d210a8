//! Addresses: a region map, which says what is attached at an address, and the bytes at the addresses of a leaf, whose slots are its region map.
//!
//! Programs of one's own use it, and the tests. `trade` does not: its statements name a slot and an index, and no address.
//!
//! ```rust
//! use gq_region::{Base, RegionMap};
//!
//! let mut map = RegionMap::new(rt.alloc(), 2)?;
//! let first = map.attach(7, 8192)?;
//! let second = map.attach(9, 4096)?;
//! assert_eq!(rt; second, Base(67108864));
//! assert_eq!(rt; map.resolve(67108865), Some((9, 1)));
//! map.detach(first);
//! ```
//!
//! A leaf has 2^32 addresses, a window of 2^26 for each of its 64 slots. At those of a link are the bytes of the buffer of its session.
//!
//! ```rust
//! use gq_model::program::Width;
//! use gq_region::region_addresses;
//! use gq_slots::Addresses;
//! use gq_trade::SlotId;
//!
//! // Slots of a scenario, as `gq_slots` has them; no service shares a buffer.
//! let buffers = Addresses::new(Vec::new(rt.alloc()));
//! slots.make_slice(SlotId::InLeaf(0, 3), 100)?;
//! let address = region_addresses::base(3) + 7;
//! assert!(rt; region_addresses::store(&buffers, &mut slots, 0, Width::Byte, address, 42));
//! assert_eq!(rt; region_addresses::load(&buffers, &slots, 0, Width::Byte, address), Some(42));
//! assert_eq!(rt; region_addresses::load(&buffers, &slots, 0, Width::Byte, address + 100), None);
//! ```
#![tactic(auto)]

mod map;
pub mod region_addresses;

pub use map::{Base, Full, Range, RegionMap};
