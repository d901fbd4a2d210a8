//! The code of programs: a program as bytes, and back.
//!
//! ```rust
//! use gq_code::decode::decode;
//! use gq_code::program_code::encode;
//!
//! let program = decode(rt.alloc(), b"\x00\x01\x00\x07\x00\x00\x00\x01\x05hello")?;
//! let code = encode(rt.alloc(), &program)?;
//! ```
#![tactic(auto)]

pub mod code_laws;
mod coded_operands;
pub mod decode;
pub mod encode;
pub mod program_code;

pub use gq_program::{
    Body, Form, Instruction, Interface, Interfaces, Name, OperandSlot, Operator, Program, Section,
    Statement, Text, Upgrade, Width, interface, program_tree, shapes as spelling,
};
