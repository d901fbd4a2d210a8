//! What statements, requests and replies do to slots, each as the abstract machine has it.
//!
//! ```rust
//! use gq_statements::Actor;
//!
//! // The leaf 0 writes a word into a space of its own, o0, and reads it; it has no current request.
//! let actor = Actor { leaf: 0, current: None };
//! actor.make(&mut slots, Form::Space, OperandSlot::Own(0), 4096)?;
//! actor.store(&addresses, &mut slots, Width::Word, OperandSlot::Own(0), 8, 77)?;
//! assert_eq!(rt; actor.load(&addresses, &mut slots, Width::Word, OperandSlot::Own(0), 8), Ok(77));
//! ```
//!
//! `open`, `upgrade`, `call` and `close` are what a leaf asks other leaves for.
//!
//! ```rust
//! use gq_statements::{call, link};
//!
//! // The leaf of `actor` calls the session in its slot o0 with 21; its slot waits until the server has replied.
//! if link(actor, &slots, OperandSlot::Own(0)).is_some() {
//!     call(actor, &mut slots, OperandSlot::Own(0), 21)?;
//! }
//! ```
//!
//! `serving_requests` and `client_replies` are what a server does with the requests of its clients, and `leaf_end` is how a leaf ends.
//!
//! ```rust
//! use gq_statements::client_replies::reply;
//! use gq_statements::serving_requests::accept;
//!
//! // The oldest request to the leaf 1 is taken, and replied to once its section is at its end.
//! if let Some(request) = accept(&provider, &mut slots, 1)? {
//!     reply(&mut slots, request.session);
//! }
//! ```
//!
//! `paid_laws`, `linked` and `request_laws` say who is paid for: in the machine's world of lawful slots every leaf is, and with what is refused there for want
//! of quota it would not be. Each is the contract of a call that does nothing.
//!
//! Modules: statements on memory (`actor`), requests of a client (`client_requests`), the server's part (`serving_requests`, `client_replies`), ends of leaves
//! (`leaf_end`).
#![tactic(auto)]

pub mod actor;
mod byte_statements;
pub mod client_replies;
mod client_requests;
pub mod leaf_end;
pub mod linked;
mod making;
pub mod paid_laws;
mod pool_statements;
pub mod request_laws;
pub mod serving_requests;

pub use actor::{Actor, Current};
pub use client_requests::{call, close, link, open, upgrade};
