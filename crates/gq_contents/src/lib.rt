//! What a slot holds, over any store and a heap in it: a block, a slice, a space or a pool, or the number of a session, which is no memory.
//!
//! ```rust
//! use gq_heap::Heap;
//! use gq_list_store::ListStore;
//! use gq_contents::{Content, read, write};
//!
//! let mut store = ListStore::new(rt.alloc(), 4, None)?;
//! let mut heap = Heap::new();
//! let slice = Content::make_slice(&mut store, account, 16)?;
//! let pool = Content::make_pool(&mut store, account, 16, 4)?;
//! let bytes = slice.extent()?;
//! write(&mut store, bytes, Width::Byte, 3, 7);
//! assert!(rt; pool.take(&mut store, &mut heap, account, 2)?);
//! pool.poke(&mut store, &heap, 2, 5, 9);
//! assert_eq!(rt; read(&store, bytes, Width::Byte, 3), 7);
//! assert_eq!(rt; pool.peek(&store, &heap, 2, 5), 9);
//! slice.free(&mut store, &mut heap, account);
//! pool.free(&mut store, &mut heap, account);
//! ```
#![tactic(auto)]

mod content;
mod extents;

pub use content::Content;
pub use extents::{read, write};
