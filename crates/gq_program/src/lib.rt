//! Programs as trees: statements, the table of how each is spelled, and the interfaces that programs are written for.
//!
//! ```rust
//! use gq_program::{Body, Instruction, Program, Section, Statement, WithNumber};
//!
//! // The program that says 7: `main`, `push 7`, `out`, `end`.
//! let mut body = Body::new(alloc);
//! body.push(Statement::Plain(WithNumber::Push.instruction(7)))?;
//! body.push(Statement::Plain(Instruction::Out))?;
//! let mut sections = Vec::new(alloc);
//! sections.push((Section::Main, body))?;
//! let program = Program::new(sections, [u32::MAX; 8]);
//! ```
//!
//! `shapes` is the table of statements: for each the word that it has in program text, its number in code, and the operands that it takes.
//!
//! ```rust
//! use gq_model::program::OperandSlot;
//! use gq_program::{Shape, shape_of_word};
//!
//! // `free` takes a slot.
//! if let Some(Shape::Slot(statement)) = shape_of_word(b"free") {
//!     let free = statement.instruction(OperandSlot::Own(3));
//! }
//! ```
#![tactic(auto)]

pub mod interface;
pub mod key_index;
pub mod name_keys;
pub mod notes;
mod program_check;
pub mod program_tree;
pub mod shapes;
pub mod spare;

pub use gq_model::program::{
    Bare, Form, Instruction, Name, OperandSlot, OperandStatement, Operator, Text, Width, WithNumber,
};
pub use gq_model::section::Section;
pub use interface::{Counts, Interface, Interfaces, Upgrade};
pub use program_tree::{Body, Program, Statement};
pub use shapes::{Shape, WithAmount, WithBytes, WithSlot, shape_of_opcode, shape_of_word};
pub use spare::Spare;
