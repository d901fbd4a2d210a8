//! The assembler of program text: from its lines and words to a program, or to the first line at fault.
//!
//! ```rust
//! use gq_asm::assemble;
//!
//! let program = assemble(rt.alloc(), b"main\nsay \"hello\"\nend\n")?;
//! assert_eq!(rt; program.sections().len(), 1);
//! ```
//!
//! Modules: words of a line (`line_words`, `source_lines`), usual lines in one go (`usual`), and the text of a program (`text`).
#![tactic(auto)]

mod asm_fault;
mod assembly_state;
mod headings;
mod line_operands;
mod line_words;
mod operand_shapes;
mod says;
mod section_lines;
mod slot_words;
mod source_lines;
mod statement_words;
mod text;
mod text_numbers;
mod usual;
mod word_prefixes;

pub use asm_fault::AssembleError;
pub use text::{assemble, assemble_with};
