//! Dataspaces: lists of bytes in whole pages, whose frames need not lie together.
//!
//! ```rust
//! use gq_dataspace::Spaces;
//! use gq_pages::Pages;
//!
//! let pages = Pages::new(rt.alloc(), 2)?;
//! let mut spaces = Spaces::new(rt.alloc(), pages)?;
//! let ds = spaces.create(1)?;
//! assert_eq!(rt; spaces.size(ds), 4096);
//! spaces.store4(ds, 4092, 7);
//! assert_eq!(rt; spaces.load4(ds, 4092), 7);
//! spaces.destroy(ds);
//! ```
#![tactic(auto)]

mod frame_lists;
mod frames;
mod spaces;

pub use spaces::{DsId, SpaceFault, Spaces};
