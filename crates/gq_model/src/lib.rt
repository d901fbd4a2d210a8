//! The specification: the definitions of the abstract machine, its verifier, its code and its texts, in `specs/`, to be
//! read in the order of `specs/Lib.antt`. The plain types that code and definitions share are declared here, once.
//!
//! ```rust
//! use gq_model::letters::is_name;
//! use gq_model::program::Name;
//!
//! assert!(rt; is_name(b"echo") && !is_name(b"Echo"));
//! let echo = Name::new(b"echo");
//! ```
#![tactic(auto)]

pub mod act;
pub mod fault;
pub mod letters;
pub mod limits;
pub mod phase;
pub mod program;
pub mod section;
pub mod spelling;
pub mod statements;
