//! The rules for programs: what is known before and after each statement and list of statements, and the first rule that one of them breaks.
//!
//! ```rust
//! use gq_rules::flow::flow;
//! use gq_rules::{Context, AbstractState, Subject};
//!
//! // What a `push` makes of what is known, in `main` of the program that is judged.
//! let context = Context::new(&subject, Section::Main);
//! context.judged(&mut state, &WithNumber::Push.instruction(7))?;
//! assert_eq!(rt; state.pop(), Ok(7));
//! // A section is walked through from what is known at its start; its statements are counted from 0 on.
//! flow(&context, &mut state, &mut 0, &mut peaks, body)?;
//! // What `peaks` has then is the most that its slots hold at any time.
//! ```
#![tactic(auto)]

pub mod broken;
pub mod context;
pub mod flow;
mod judge;
pub mod known_state;
pub mod memory_rules;
pub mod operand_rules;
pub mod session_rules;
pub mod subject;

pub use broken::{Broken, at};
pub use context::Context;
pub use known_state::AbstractState;
pub use subject::Subject;
