//! Memory in frames of 4096 bytes: one block of host memory, of which frames are taken and given back.
//!
//! ```rust
//! use gq_pages::Pages;
//!
//! let mut pages = Pages::new(rt.alloc(), 2)?;
//! let frame = pages.take()?;
//! pages.set_byte(frame, 4095, 7);
//! assert_eq!(rt; pages.byte(frame, 4095), 7);
//! pages.give(frame);
//! assert_eq!(rt; pages.free_count(), 2);
//! ```
#![tactic(auto)]

mod marks;
mod memory;
mod pages;
mod region;

pub use pages::{FrameNo, NoFrame, Pages};
