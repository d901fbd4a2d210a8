// What is known of a document: a tree of keys, elements and tables, each with its places.
// No contract: its results are places; tests show them (`gq_rows`).
use std::alloc::{AllocError, Global};
use std::collections::BTreeMap;

/// One step of a path into a document: to a key of a table, or to an element of an array, numbered from 0.
#[derive(Clone, Copy, Debug, PartialEq, Eq, Drop)]
pub enum Step<'p> {
    Key(&'p str),
    Index(usize),
}

/// The number of the document's own table.
pub(crate) const ROOT: usize = 0;

// How many keys and elements a path of a document has at most that is noted. What stands deeper has no place of its own, so that a text of tables within one
// another takes no more room than its tables do.
const DEEPEST: u32 = 16;

// So many keys of a table stand in a list, and further ones in a map, whose first key takes room for fifteen.
const FEW: usize = 4;

/// Where something stands, as offsets into the text.
#[derive(Clone, Copy, Debug, PartialEq, Eq)]
pub(crate) struct Marks {
    /// Its key, where that is written first; of an element where this begins.
    pub key: usize,
    /// Its value; of a table or an element of an array of tables the header.
    pub value: usize,
}

// The keys of a table, with the numbers of their nodes.
#[derive(Drop)]
struct Keys {
    few: Vec<(String, usize)>,
    more: BTreeMap<String, usize>,
}

impl Keys {
    fn new(alloc: Global) -> Keys {
        Keys {
            few: Vec::new(alloc),
            more: BTreeMap::new(alloc),
        }
    }

    fn insert(&mut self, name: String, node: usize) -> Result<(), AllocError> {
        if self.few.len() < FEW {
            self.few.push((name, node))?;
        } else {
            self.more.insert(name, node)?;
        }
        Ok(())
    }

    fn get(&self, name: &str) -> Option<usize> {
        for (key, node) in &self.few {
            if key.as_str() == name {
                return Some(*node);
            }
        }
        self.more.get(name).copied()
    }
}

// A key, an element or a table, how many keys and elements lead to it, and what stands below it.
#[derive(Drop)]
struct DocumentNode {
    mark: Marks,
    depth: u32,
    below: Below,
}

#[derive(Drop)]
enum Below {
    Nothing,
    /// The keys of a table.
    Keys(Keys),
    /// The elements of an array that are tables or arrays, in order, with their numbers.
    Elements(Vec<Element>),
}

#[derive(Clone, Copy, Drop)]
struct Element {
    index: usize,
    node: usize,
}

/// What a new node holds.
#[derive(Clone, Copy, PartialEq, Eq)]
pub(crate) enum DocumentKind {
    Scalar,
    Table,
    Array,
}

/// What a value belongs to: a key of a table, with its name and its offset, or an element of an array.
#[derive(Drop)]
pub(crate) enum ValueOwner {
    Key(usize, String, usize),
    Element(usize, usize),
}

/// The nodes of a document, each by its number, the document's own table first.
#[derive(Drop)]
pub(crate) struct Tree {
    alloc: Global,
    nodes: Vec<DocumentNode>,
}

impl Tree {
    /// A document without keys.
    pub fn new(alloc: Global) -> Result<Tree, AllocError> {
        let mut tree = Tree {
            alloc,
            nodes: Vec::new(alloc),
        };
        tree.add(DocumentKind::Table, 0, Marks { key: 0, value: 0 })?;
        Ok(tree)
    }

    // A node that nothing leads to yet.
    fn add(&mut self, kind: DocumentKind, depth: u32, mark: Marks) -> Result<usize, AllocError> {
        let number = self.nodes.len();
        let below = match kind {
            DocumentKind::Scalar => Below::Nothing,
            DocumentKind::Table => Below::Keys(Keys::new(self.alloc)),
            DocumentKind::Array => Below::Elements(Vec::new(self.alloc)),
        };
        self.nodes.push(DocumentNode { mark, depth, below })?;
        Ok(number)
    }

    // How deep what is below a node stands; nothing where that is too deep to be noted.
    fn depth_below(&self, number: usize) -> Option<u32> {
        match self.nodes.get(number) {
            Some(node) if node.depth < DEEPEST => Some(node.depth + 1),
            _ => None,
        }
    }

    // A new key of a table; the table itself where it would stand too deep. In what is no table nothing leads to it.
    fn add_key(
        &mut self,
        table: usize,
        name: String,
        kind: DocumentKind,
        mark: Marks,
    ) -> Result<usize, AllocError> {
        let Some(depth) = self.depth_below(table) else {
            return Ok(table);
        };
        let number = self.add(kind, depth, mark)?;
        if let Some(
            DocumentNode {
                below: Below::Keys(keys),
                ..
            },
        ) = self.nodes.get_mut(table)
        {
            keys.insert(name, number)?;
        }
        Ok(number)
    }

    // A new element of an array, after those that it has; the array itself where it would stand too deep.
    fn add_element(
        &mut self,
        array: usize,
        index: usize,
        kind: DocumentKind,
        mark: Marks,
    ) -> Result<usize, AllocError> {
        let Some(depth) = self.depth_below(array) else {
            return Ok(array);
        };
        let number = self.add(kind, depth, mark)?;
        if let Some(
            DocumentNode {
                below: Below::Elements(elements),
                ..
            },
        ) = self.nodes.get_mut(array)
        {
            elements.push(Element {
                index,
                node: number,
            })?;
        }
        Ok(number)
    }

    /// The table of a key that a header or a dotted key goes through, made where there is none.
    pub fn through(
        &mut self,
        table: usize,
        name: String,
        mark: Marks,
    ) -> Result<usize, AllocError> {
        match self.key(table, name.as_str()) {
            Some(node) => Ok(self.last_of(node)),
            None => self.add_key(table, name, DocumentKind::Table, mark),
        }
    }

    /// The table of a header in brackets, which may have been gone through before.
    pub fn own_header(
        &mut self,
        table: usize,
        name: String,
        mark: Marks,
    ) -> Result<usize, AllocError> {
        match self.key(table, name.as_str()) {
            Some(node) => {
                self.set_value(node, mark.value);
                Ok(node)
            }
            None => self.add_key(table, name, DocumentKind::Table, mark),
        }
    }

    /// The table of a header in double brackets: one more element of its array.
    pub fn next_element(
        &mut self,
        table: usize,
        name: String,
        mark: Marks,
    ) -> Result<usize, AllocError> {
        let array = match self.key(table, name.as_str()) {
            Some(node) => node,
            None => self.add_key(table, name, DocumentKind::Array, mark)?,
        };
        let index = self.count(array);
        self.add_element(array, index, DocumentKind::Table, mark)
    }

    /// Notes where a value stands. An element that is neither a table nor an array is not noted.
    pub fn note(
        &mut self,
        owner: ValueOwner,
        kind: DocumentKind,
        at: usize,
    ) -> Result<usize, AllocError> {
        match owner {
            ValueOwner::Key(table, name, key) => self.add_key(
                table,
                name,
                kind,
                Marks { key, value: at },
            ),
            ValueOwner::Element(array, _) if kind == DocumentKind::Scalar => Ok(array),
            ValueOwner::Element(array, index) => self.add_element(
                array,
                index,
                kind,
                Marks { key: at, value: at },
            ),
        }
    }

    // A table that was only gone through gets a header of its own.
    fn set_value(&mut self, number: usize, value: usize) {
        if let Some(node) = self.nodes.get_mut(number) {
            node.mark.value = value;
        }
    }

    /// Where a node stands.
    pub fn mark(&self, number: usize) -> Marks {
        match self.nodes.get(number) {
            Some(node) => node.mark,
            None => Marks { key: 0, value: 0 },
        }
    }

    /// Whether a node is a table.
    pub fn is_table(&self, number: usize) -> bool {
        match self.nodes.get(number) {
            Some(node) => matches!(node.below, Below::Keys(_)),
            None => false,
        }
    }

    // The node of a key in a table.
    fn key(&self, table: usize, name: &str) -> Option<usize> {
        match self.nodes.get(table) {
            Some(
                DocumentNode {
                    below: Below::Keys(keys),
                    ..
                },
            ) => keys.get(name),
            _ => None,
        }
    }

    // The node of an element of an array.
    fn element(&self, array: usize, index: usize) -> Option<usize> {
        let Some(
            DocumentNode {
                below: Below::Elements(elements),
                ..
            },
        ) = self.nodes.get(array)
        else {
            return None;
        };
        match elements
            .as_slice()
            .binary_search_by_key(&index, |element| element.index)
        {
            Ok(place) => elements.get(place).map(|element| element.node),
            Err(_) => None,
        }
    }

    // How many elements of an array are known.
    fn count(&self, array: usize) -> usize {
        match self.nodes.get(array) {
            Some(
                DocumentNode {
                    below: Below::Elements(elements),
                    ..
                },
            ) => elements.len(),
            _ => 0,
        }
    }

    /// The node that a step leads to.
    pub fn below(&self, number: usize, step: Step<'_>) -> Option<usize> {
        match step {
            Step::Key(name) => self.key(number, name),
            Step::Index(index) => self.element(number, index),
        }
    }

    // The table that a header goes on from: the last element of an array of tables, and any other node itself.
    fn last_of(&self, number: usize) -> usize {
        match self.nodes.get(number) {
            Some(
                DocumentNode {
                    below: Below::Elements(elements),
                    ..
                },
            ) => match elements.last() {
                Some(element) => element.node,
                None => number,
            },
            _ => number,
        }
    }
}
