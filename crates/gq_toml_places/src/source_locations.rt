// The places of a text.
ghost use Rattle.std.specs.Prelude.{◌≡◌, ◌+◌, ◌≤◌, length, IfOk};
ghost use Rattle.gq_toml_places.specs.Positions.{line_feeds, since_feed};

use crate::contents::{ContentLine, contents, is_multi_line, line_offset, nth_line};
use crate::document_tree::{Marks, ROOT, Step, Tree};
use crate::dotted_keys::part_end;
use crate::line_columns::{LineStarts, Position};
use crate::toml_reader::read_tree;
use std::alloc::{AllocError, Global};
use std::marker::Model;

/// Where each table, key and value of a TOML text stands, to which at most sixteen keys and elements lead. Of a text that is no TOML, what stands before it
/// stops being one.
#[derive(Drop)]
pub struct SourceMap<'t> {
    text: &'t str,
    lines: LineStarts<'t>,
    tree: Tree,
}

// How far a path leads.
#[derive(Clone, Copy)]
struct Way {
    /// Where its last known step stands.
    mark: Marks,
    /// The header of the last table on it.
    table: usize,
    whole: bool,
}

impl<'t> Model for SourceMap<'t> {
    ghost use Rattle.std.specs.Prelude.{◌≡◌, ℕ, List};

    ghost Value = { List ℕ };

    ghost view = { λ p. p.text.now };

    ghost invariant = { λ p. p.lines ≡ p.text.now };
}

impl<'t> SourceMap<'t> {
    /// The places of a text, by one pass over it.
    pub fn read(alloc: Global, text: &'t str) -> Result<SourceMap<'t>, AllocError>
        ensures { IfOk result (λ places. places ≡ text.now) }
    {
        let lines = LineStarts::read(alloc, text)?;
        let tree = read_tree(alloc, text)?;
        Ok(SourceMap { text, lines, tree })
    }

    /// The line and the column of an offset, as `Lines` gives them.
    pub fn position(&self, offset: usize) -> Position
        requires { offset ≤ length self.now }
        ensures line { result.line ≡ line_feeds self.now offset + 1 }
        ensures column { result.column ≡ since_feed self.now offset + 1 }
    {
        self.lines.position(offset)
    }

    /// The text of a line, as `Lines` gives it.
    pub fn line(&self, number: usize) -> &'t str {
        self.lines.line(number)
    }

    /// Whether a path leads to a key, an element or a table that is known. Of an array those elements are that are tables or arrays.
    pub fn knows(&self, path: &[Step<'_>]) -> bool {
        self.way(path).whole
    }

    /// The offset of the header of the table that a path leads to or into: its opening bracket, or the brace of an inline table. A table
    /// that only dotted keys or longer headers name stands where the first of them does, and the document's own at 0.
    pub fn table(&self, path: &[Step<'_>]) -> usize
        ensures { result ≤ length self.now }
    {
        self.within(self.way(path).table)
    }

    /// The offset of the key that a path leads to, where that is written first; of an element of an array that of its header or its
    /// first byte. For a path that is not known the header of the last table on it.
    pub fn key(&self, path: &[Step<'_>]) -> usize
        ensures { result ≤ length self.now }
    {
        let way = self.way(path);
        self.within(if way.whole { way.mark.key } else { way.table })
    }

    /// The offset of the value that a path leads to, of a table its header. For a path that is not known the header of the last table on
    /// it.
    pub fn value(&self, path: &[Step<'_>]) -> usize
        ensures { result ≤ length self.now }
    {
        let way = self.way(path);
        self.within(if way.whole { way.mark.value } else { way.table })
    }

    /// The key that a path leads to, as it is written, with its quotes. Nothing where the path is not known, or ends at an element.
    pub fn written_key(&self, path: &[Step<'_>]) -> &'t str {
        let way = self.way(path);
        match path.last() {
            Some(Step::Key(_)) if way.whole => {
                let end = part_end(self.text.as_bytes(), way.mark.key);
                self.text.get(way.mark.key..end).unwrap_or("")
            }
            _ => "",
        }
    }

    /// A line of the contents of the string that a path leads to, numbered from 1: its text, and the offset of its first byte that is no
    /// blank. A string that isn't multi-line, a line that it has not, and what is no string, stand at the path's key.
    pub fn content_line(
        &self,
        alloc: Global,
        path: &[Step<'_>],
        number: usize,
    ) -> Result<ContentLine, AllocError>
        ensures { IfOk result (λ line. line.at ≤ length self.now) }
    {
        let value = self.value(path);
        let found = match self.text.get(value..) {
            Some(rest) => contents(alloc, rest)?,
            None => None,
        };
        match &found {
            Some(contents) => match nth_line(contents.as_str(), number) {
                Some(line) => Ok(ContentLine {
                    at: self.line_place(path, value, number),
                    text: String::from_str(alloc, line)?,
                }),
                None => self.no_line(alloc, path),
            },
            None => self.no_line(alloc, path),
        }
    }

    fn no_line(&self, alloc: Global, path: &[Step<'_>]) -> Result<ContentLine, AllocError>
        ensures { IfOk result (λ line. line.at ≤ length self.now) }
    {
        Ok(ContentLine {
            at: self.key(path),
            text: String::new(alloc),
        })
    }

    // Where a line of a string stands.
    fn line_place(&self, path: &[Step<'_>], value: usize, number: usize) -> usize
        ensures { result ≤ length self.now }
    {
        let bytes = self.text.as_bytes();
        if value < bytes.len() && is_multi_line(bytes, value) {
            line_offset(bytes, value, number)
        } else {
            self.key(path)
        }
    }

    // An offset of this text.
    fn within(&self, offset: usize) -> usize
        ensures { result ≤ length self.now }
    {
        offset.min(self.text.len())
    }

    // Follows a path as far as it is known.
    fn way(&self, path: &[Step<'_>]) -> Way {
        let mut node = ROOT;
        let mut table = ROOT;
        for step in path {
            let Some(below) = self.tree.below(node, *step) else {
                return self.way_to(node, table, false);
            };
            node = below;
            if self.tree.is_table(node) {
                table = node;
            }
        }
        self.way_to(node, table, true)
    }

    fn way_to(&self, node: usize, table: usize, whole: bool) -> Way {
        Way {
            mark: self.tree.mark(node),
            table: self.tree.mark(table).value,
            whole,
        }
    }
}
