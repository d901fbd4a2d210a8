//! What every slot of a scenario holds, in the memory of the leaf that pays for it: the slots of its leaves, those of its sessions, and their objects.
//!
//! ```rust
//! use gq_trade::SlotId;
//! use gq_slots::Slots;
//!
//! // Accounts for the nodes of a plan, as `gq_trade` has them.
//! let mut slots = Slots::new(rt.alloc(), 65536, None, plan, 24)?;
//! let slot_id = SlotId::InLeaf(0, 3);
//! slots.make_slice(slot_id, 100)?;
//! let bytes = slots.extent(slot_id)?;
//! slots.write(bytes, Width::Byte, 7, 42);
//! assert_eq!(rt; slots.read(bytes, Width::Byte, 7), 42);
//! slots.free(slot_id);
//! ```
//!
//! `sessions` and `ending_leaves` have what requests, their servers and the ends of leaves do to all slots.
//!
//! ```rust
//! use gq_trade::SlotId;
//! use gq_slots::{ending_leaves, sessions};
//!
//! // The leaf 1 opens a session to the leaf 0, which takes the request; then the session is closed, and the client ends.
//! let session = sessions::ask(&mut slots, 1, SlotId::InLeaf(1, 0), 0, 0, donation)?;
//! sessions::accept(&mut slots, 0)?;
//! sessions::ask_close(&mut slots, session);
//! sessions::accept(&mut slots, 0)?;
//! sessions::closed(&mut slots, session)?;
//! ending_leaves::end(&mut slots, 1);
//! ```
//!
//! [`Addresses`] says where the bytes of a slot stand: behind a link they are those of the session's buffer.
#![tactic(auto)]

pub mod ending_leaves;
pub mod sessions;
pub mod slot_addresses;
mod slot_contents;
pub mod slots;

pub use slot_addresses::Addresses;
pub use slots::Slots;
