//! A leaf with the bytecode of its program, and each of its steps as the abstract machine has it.
//!
//! A leaf ([`Leaf`]) stands at a place in its code. One call ([`Leaf::run`]) takes the steps in which the leaf alone has a part. Another one
//! ([`Leaf::run_over`]) takes most of those on its memory, too. Who runs the leaf then does the operation that it came to, over the slots of the machine.
//!
//! ```rust
//! use gq_leaf::Leaf;
//!
//! // A leaf with two signals.
//! let mut leaf = Leaf::new(alloc, &program, Phase::Running, 2)?;
//! // Up to a thousand turns, or up to the first operation in which others have a part.
//! let (reached, left) = leaf.run(1000);
//! ```
//!
//! `operations`, `on_memory` and `asking_statements` have what the operations do to a leaf's operands and to slots.
//!
//! ```rust
//! use gq_leaf::on_memory::{load, store};
//!
//! // `store4 o0` and `load4 o0`, with their operands on those of the leaf.
//! store(&mut registers, actor, &addresses, &mut slots, Width::Word, OperandSlot::Own(0))?;
//! load(&mut registers, actor, &addresses, &mut slots, Width::Word, OperandSlot::Own(0))?;
//! ```
#![tactic(auto)]

pub mod asking_statements;
mod going;
pub mod leaf;
mod line_statements;
pub mod memory_statements;
pub mod on_memory;
pub mod operations;
mod section_ends;
pub mod signals;
pub mod step_laws;
pub mod stepping;

pub use leaf::{Leaf, Reached};
pub use signals::{Signal, Signals};
