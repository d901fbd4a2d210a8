//! Where things stand in a TOML text.
//!
//! - For a path of keys and indices of arrays: the offset of a table's header, a key or a value.
//! - For an offset: its line and column.
//! - For a line of a string's contents: the place of that line in the text.
//! - For a text that is no TOML: the place at which it stops being one.
//!
//! ```rust
//! use gq_toml_places::{SourceMap, Step};
//!
//! let text = "version = 1\n\n[interface.echo]\nneed = '8K'\n";
//! let places = SourceMap::read(rt.alloc(), text)?;
//! let need = places.key(&[Step::Key("interface"), Step::Key("echo"), Step::Key("need")]);
//! let position = places.position(need);
//! assert_eq!(rt; (position.line, position.column), (4, 1));
//! ```
#![tactic(auto)]

mod contents;
mod document_tree;
mod dotted_keys;
mod line_columns;
mod source_locations;
mod stop;
mod toml_reader;

pub use contents::ContentLine;
pub use document_tree::Step;
pub use line_columns::{LineStarts, Position};
pub use source_locations::SourceMap;
pub use stop::{NotToml, not_toml};
