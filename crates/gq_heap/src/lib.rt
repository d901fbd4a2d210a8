//! A heap over any store of chunks. Blocks of at most 2048 bytes are places of eight classes, whose free places are chained through their own
//! first bytes; a greater block is a chunk of its own. The heap keeps a head and two counts for each class and no list.
//!
//! ```rust
//! use gq_heap::Heap;
//! use gq_list_store::ListStore;
//!
//! let mut store = ListStore::new(rt.alloc(), 4, None)?;
//! let mut heap = Heap::new();
//! let place = heap.alloc(&mut store, account, 100)?;
//! heap.store(&mut store, place, 99, 7);
//! assert_eq!(rt; heap.load(&store, place, 99), 7);
//! heap.free(&mut store, account, place);
//! ```
#![tactic(auto)]

mod bin;
mod cell_class;
mod chain;
mod heap;

pub use gq_store::{AccountNo, ByteStore, ChunkNo, GrowFault};
pub use gq_tariff::Class;
pub use heap::{Heap, Place};
