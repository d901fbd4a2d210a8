//! Pools over a store and a heap: a table of entries, each absent or a place of the heap. The table lies in paid pages of its own, four bytes for each
//! entry: 0 where it is absent, else the number of its place and one.
//!
//! ```rust
//! use gq_heap::Heap;
//! use gq_list_store::ListStore;
//! use gq_pool::Pool;
//!
//! let mut store = ListStore::new(rt.alloc(), 4, None)?;
//! let mut heap = Heap::new();
//! let pool = Pool::new(&mut store, account, 16, 1024)?;
//! assert!(rt; pool.take(&mut store, &mut heap, account, 9)?);
//! pool.store(&mut store, &heap, 9, 0, 7);
//! assert!(rt; pool.give(&mut store, &mut heap, account, 9));
//! ```
#![tactic(auto)]

mod pool;

pub use pool::Pool;
