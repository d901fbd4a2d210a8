// Where a statement stands.
ghost use Rattle.std.specs.Prelude.{◌≡◌, ◌<◌, length, slice_get, slice_index};
ghost use Rattle.gq_model.specs.rules.Kinds.{inside};
ghost use Rattle.gq_model.specs.machine.Sections.{is_own_section};
ghost use Rattle.gq_model.specs.rules.Flow.{context};

use crate::subject::Subject;
use arrayvec::ArrayVec;
use gq_model::limits::GREATEST_DEPTH;
use gq_program::Section;
use std::marker::Model;

/// Where a statement stands: in this section of the program, inside of loops of these counts, the innermost first.
#[derive(Drop)]
pub struct Context<'a> {
    subject: &'a Subject<'a>,
    section: Section,
    counts: ArrayVec<u16, GREATEST_DEPTH>,
}

impl<'a> Model for Context<'a> {
    ghost use Rattle.gq_model.specs.rules.Kinds.{Context};
    ghost use Rattle.gq_model.specs.internal.Stored.{statements_code};
    ghost use Rattle.std.specs.Coded.{codes};

    ghost Value = { Context };

    ghost coded = { Prim.hlevel (codes, statements_code (Prim.hlevel codes)) };

    ghost view = { λ c. record { subject = c.subject.now; section = c.section; counts = c.counts.items } };
}

impl<'a> Context<'a> {
    /// In this section, inside of no loop.
    pub fn new(subject: &'a Subject<'a>, section: Section) -> Context<'a>
        ensures { result ≡ context subject.now section }
    {
        Context {
            subject,
            section,
            counts: ArrayVec::new(),
        }
    }

    /// The same inside of a further loop of this count.
    pub fn inside(&self, count: u16) -> Context<'a>
        requires { length self.now.counts < 4 }
        ensures { result ≡ inside self.now count }
    {
        let mut counts = ArrayVec::new();
        counts.push(count);
        match counts.try_extend_from_slice(self.counts.as_slice()) {
            Ok(()) => Context {
                subject: self.subject,
                section: self.section,
                counts,
            },
            Err(_) => unreachable!(),
        }
    }

    /// What the program is judged by.
    pub fn subject(&self) -> &Subject<'a>
        ensures { result.now ≡ self.now.subject }
    {
        self.subject
    }

    /// The section.
    pub fn section(&self) -> Section
        ensures { result ≡ self.now.section }
    {
        self.section
    }

    /// Whether its section is one of the leaf's own, in which no session is current.
    pub fn is_own(&self) -> bool
        ensures { result ≡ is_own_section self.now.section }
    {
        self.section.is_own()
    }

    /// The count of the loop so many loops out, where there is one.
    pub fn count(&self, depth: u32) -> Option<u16>
        ensures { result ≡ slice_get self.now.counts depth }
    {
        self.counts.as_slice().get(depth as usize).copied()
    }

    /// The greatest value of a local; 0 where there is none of this number.
    pub fn local(&self, number: u32) -> u32
        ensures { result ≡ slice_index self.now.subject.program.locals number }
    {
        let locals = self.subject.program().locals();
        match locals.get(number as usize) {
            Some(limit) => *limit,
            None => 0,
        }
    }

    /// The greatest value of an input, where there is one of this number.
    pub fn greatest_input(&self, number: u32) -> Option<u32>
        ensures { result ≡ slice_get self.now.subject.inputs number }
    {
        self.subject.input(number)
    }
}
