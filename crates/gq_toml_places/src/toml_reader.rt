// One pass over a text, which notes each header, key, element and inline table.
ghost use Rattle.std.specs.Prelude.{◌≡◌, ◌<◌, length, slice_index, IsTrue, OnOk, IfOk};

use crate::document_tree::{DocumentKind, Marks, ROOT, Tree, ValueOwner};
use crate::dotted_keys::part;
use std::alloc::{AllocError, Global};
use toml_parser::text::{byte_at, first, skip, skip_blank, skip_ws};
use toml_parser::{ErrorKind, ParseError, RECURSION_LIMIT, quoted, starts_string, unquoted};

// An array or an inline table that is not closed yet.
#[derive(Clone, Copy, Drop)]
enum Open {
    /// With the number of the elements so far.
    Array(usize, usize),
    Table(usize),
}

#[derive(Drop)]
struct Reader<'t> {
    alloc: Global,
    text: &'t str,
    rest: &'t str,
    tree: Tree,
    /// The table of the last header.
    section: usize,
    /// The innermost last.
    open: Vec<Open>,
}

/// The places of all that is read up to the end of the text, or up to where it stops being TOML. Takes time in proportion to the
/// text, and for each key that of a search among the keys of its table.
pub(crate) fn read_tree(alloc: Global, text: &str) -> Result<Tree, AllocError> {
    let mut reader = Reader {
        alloc,
        text,
        rest: text.strip_prefix('\u{feff}').unwrap_or(text),
        tree: Tree::new(alloc)?,
        section: ROOT,
        open: Vec::new(alloc),
    };
    'steps: loop {
        match reader.step() {
            Ok(true) => {}
            Ok(false) => return Ok(reader.tree),
            Err(ParseError::OutOfMemory) => return Err(AllocError),
            Err(_) => return Ok(reader.tree),
        }
    }
}

impl<'t> Reader<'t> {
    // Reads a header, a key with its `=`, an element, a comma or a closing bracket. `false` at the end of the text.
    fn step(&mut self) -> Result<bool, ParseError>
        ensures { IfOk result (λ more. IsTrue more → length self.new.rest.now < length self.old.rest.now) }
    {
        self.rest = skip_blank(self.rest, true);
        if self.rest.is_empty() {
            return Ok(false);
        }
        match self.open.last().copied() {
            None if first(self.rest) == b'[' => self.header()?,
            None => self.pair(self.section)?,
            Some(Open::Array(array, count)) => self.in_array(array, count)?,
            Some(Open::Table(table)) => self.in_table(table)?,
        }
        Ok(true)
    }

    fn in_array(&mut self, array: usize, count: usize) -> Result<(), ParseError>
        ensures { OnOk result (length self.new.rest.now < length self.old.rest.now) }
    {
        match first(self.rest) {
            b',' => self.pass(),
            b']' => self.close(),
            _ => {
                count_element(&mut self.open);
                self.value(ValueOwner::Element(array, count))?;
            }
        }
        Ok(())
    }

    fn in_table(&mut self, table: usize) -> Result<(), ParseError>
        ensures { OnOk result (length self.new.rest.now < length self.old.rest.now) }
    {
        match first(self.rest) {
            b',' => self.pass(),
            b'}' => self.close(),
            _ => self.pair(table)?,
        }
        Ok(())
    }

    // Over a comma or a bracket.
    fn pass(&mut self)
        requires there { 0 < slice_index self.old.rest.now 0 }
        requires ascii { slice_index self.old.rest.now 0 < 128 }
        ensures { length self.new.rest.now < length self.old.rest.now }
    {
        self.rest = skip(self.rest, 1);
    }

    fn close(&mut self)
        requires there { 0 < slice_index self.old.rest.now 0 }
        requires ascii { slice_index self.old.rest.now 0 < 128 }
        ensures { length self.new.rest.now < length self.old.rest.now }
    {
        self.open.pop();
        self.pass();
    }

    // The offset of what comes next.
    fn offset(&self, rest: &str) -> usize {
        self.text.len().saturating_sub(rest.len())
    }

    // A key that may have dots, `=`, and its value, of which an opening bracket is all that is read here.
    fn pair(&mut self, table: usize) -> Result<(), ParseError>
        ensures { OnOk result (length self.new.rest.now < length self.old.rest.now) }
    {
        let (table, name, at) = self.dotted(table, None)?;
        if first(self.rest) != b'=' {
            return Err(ParseError::at(ErrorKind::MissingEquals, self.rest));
        }
        self.rest = skip_ws(skip(self.rest, 1));
        self.value(ValueOwner::Key(table, name, at))
    }

    // Follows a key up to its last part, which is given with its table and its offset. The tables that it makes on its way have the
    // header as their value, and without one their own part of the key.
    fn dotted(
        &mut self,
        table: usize,
        header: Option<usize>,
    ) -> Result<(usize, String, usize), ParseError>
        ensures { OnOk result (length self.new.rest.now < length self.old.rest.now) }
    {
        let mut table = table;
        for _part in 0..RECURSION_LIMIT {
            let at = self.offset(self.rest);
            let (name, after) = part(self.alloc, self.rest)?;
            self.rest = skip_ws(after);
            if first(self.rest) != b'.' {
                return Ok((table, name, at));
            }
            self.rest = skip_ws(skip(self.rest, 1));
            let value = header.unwrap_or(at);
            table = self.tree.through(table, name, Marks { key: at, value })?;
        }
        Err(ParseError::at(ErrorKind::Recursion, self.rest))
    }

    // A value, or the opening bracket of an array or an inline table, of which as many may stand in one another as `toml` allows.
    fn value(&mut self, owner: ValueOwner) -> Result<(), ParseError>
        ensures { OnOk result (length self.new.rest.now < length self.old.rest.now) }
    {
        let at = self.offset(self.rest);
        match first(self.rest) {
            b'[' | b'{' if self.open.len() >= RECURSION_LIMIT => {
                return Err(ParseError::at(ErrorKind::Recursion, self.rest));
            }
            b'[' => {
                let array = self.tree.note(owner, DocumentKind::Array, at)?;
                self.open.push(Open::Array(array, 0))?;
                self.pass();
            }
            b'{' => {
                let table = self.tree.note(owner, DocumentKind::Table, at)?;
                self.open.push(Open::Table(table))?;
                self.pass();
            }
            _ => {
                self.rest = after_scalar(self.alloc, self.rest)?;
                self.tree.note(owner, DocumentKind::Scalar, at)?;
            }
        }
        Ok(())
    }

    // A header in brackets or double brackets.
    fn header(&mut self) -> Result<(), ParseError>
        requires { slice_index self.old.rest.now 0 ≡ 91 }
        ensures { OnOk result (length self.new.rest.now < length self.old.rest.now) }
    {
        let at = self.offset(self.rest);
        let double = byte_at(self.rest, 1) == b'[';
        let inside = if double {
            skip(self.rest, 2)
        } else {
            skip(self.rest, 1)
        };
        self.rest = skip_ws(inside);
        let (table, name, key) = self.dotted(ROOT, Some(at))?;
        self.closing_bracket()?;
        let mark = Marks { key, value: at };
        self.section = if double {
            self.closing_bracket()?;
            self.tree.next_element(table, name, mark)?
        } else {
            self.tree.own_header(table, name, mark)?
        };
        Ok(())
    }

    fn closing_bracket(&mut self) -> Result<(), ParseError>
        ensures { OnOk result (length self.new.rest.now < length self.old.rest.now) }
    {
        if first(self.rest) != b']' {
            return Err(ParseError::at(ErrorKind::UnclosedTable, self.rest));
        }
        self.pass();
        Ok(())
    }
}

// One more element in the innermost array.
fn count_element(open: &mut Vec<Open>) {
    if let Some(Open::Array(_, count)) = open.last_mut() {
        *count = count.saturating_add(1);
    }
}

// The text after a value without brackets.
fn after_scalar(alloc: Global, s: &str) -> Result<&str, ParseError>
    ensures { IfOk result (λ rest. length rest.now < length s.now) }
{
    if starts_string(s) {
        Ok(quoted(alloc, s)?.1)
    } else {
        Ok(unquoted(alloc, s)?.1)
    }
}
