// Room of lists of statements that are not needed any more, for those to come.
// No contract: callers see such room in time and host memory alone; benchmarks and refused growths show it.
use crate::program_tree::{Body, Kept, Listed, Program, Statement};
use std::alloc::{AllocError, Global};

/// Lists with room for more statements than so are not kept: there are few of them, and small lists would take them.
const FEW: usize = 8;

/// Lists whose statements are not needed any more, with the room that they have. A list that begins takes one of them, in place of host memory.
#[derive(Drop)]
pub struct Spare {
    lists: Vec<Box<Kept>>,
}

impl Spare {
    /// None, and no room to keep any. It allocates no host memory.
    pub fn new(alloc: Global) -> Spare {
        Spare {
            lists: Vec::new(alloc),
        }
    }

    /// None, with room to keep so many of them. Fails if the host refuses memory.
    pub fn with_room(alloc: Global, lists: usize) -> Result<Spare, AllocError> {
        Ok(Spare {
            lists: Vec::with_capacity(alloc, lists)?,
        })
    }

    /// One of them. Its statements are still there.
    pub(crate) fn take(&mut self) -> Option<Box<Kept>> {
        self.lists.pop()
    }

    /// Keeps a list, if it is a short one and there is room. Else it is let go.
    fn keep(&mut self, kept: Box<Kept>) {
        if kept.statements.capacity() <= FEW && self.lists.len() < self.lists.capacity() {
            self.lists.push_reserved(kept);
        }
    }

    /// Keeps the lists in these statements, which are let go.
    #[cycle(spares)]
    fn give_all(&mut self, statements: &mut Vec<Statement>) {
        while let Some(statement) = statements.pop() {
            self.give_blocks(statement);
        }
    }

    /// Whether a list is kept, or one in its blocks may be. Blocks that take no steps have no statements.
    fn gains_by(&self, body: &Body) -> bool {
        match &body.listed {
            Listed::Nothing => false,
            Listed::Statements(kept) => {
                kept.notes.further > 0
                    || kept.statements.capacity() <= FEW && self.lists.len() < self.lists.capacity()
            }
        }
    }

    /// Keeps a list of statements and those in its blocks, as far as there is room. A long list without blocks is let go as a whole.
    #[cycle(spares)]
    fn give(&mut self, body: Body) {
        if !self.gains_by(&body) {
            return;
        }
        let Body { listed, alloc: _ } = body;
        match listed {
            Listed::Nothing => {}
            Listed::Statements(mut kept) => {
                if kept.notes.further > 0 {
                    self.give_all(&mut kept.statements);
                }
                self.keep(kept);
            }
        }
    }

    /// Keeps the lists in a statement.
    #[cycle(spares)]
    fn give_blocks(&mut self, statement: Statement) {
        match statement {
            Statement::Plain(_) => {}
            Statement::If(arm, other) => {
                self.give(arm);
                self.give(other);
            }
            Statement::Loop(_, body) => self.give(body),
        }
    }

    /// Keeps the short lists of a program, as far as there is room; the rest of it is let go.
    pub fn give_program(&mut self, program: Program) {
        for (_section, body) in program.sections {
            self.give(body);
        }
    }
}
