// What changes in the programs of a scenario's text.
// No contract but that nothing is out of range: what is made of it is read again (`made`). Tests show it.
use crate::edits::Edit;
use crate::fit_fault::MakeError;
use crate::program_edits::push_program;
use crate::ways::with_step;
use gq_scenario::key::Key;
use gq_scenario::scenario::{Leaf, Node, Nodes, Scenario};
use gq_scenario::source::Source;
use gq_sizes::donations::SectionDonations;
use gq_toml_places::{SourceMap, Step};
use std::alloc::Global;

/// What the leaves that are left are to give, the next one first.
type Left<'d> = &'d [Vec<SectionDonations>];

/// Collects what changes in the programs of a text.
#[derive(Drop)]
struct Programs<'t> {
    alloc: Global,
    text: &'t str,
    places: SourceMap<'t>,
    edits: Vec<Edit>,
}

impl<'t> Programs<'t> {
    /// What changes of nodes and those in them, to whose table a way leads; and what is left to be given.
    fn nodes<'d>(
        &mut self,
        way: &[Step<'_>],
        nodes: &Nodes,
        given: Left<'d>,
    ) -> Result<Left<'d>, MakeError> {
        let list = with_step(self.alloc, way, Step::Key(Key::Start.word()))?;
        let mut left = given;
        let mut index = 0_usize;
        for node in nodes.nodes() {
            let way = with_step(self.alloc, list.as_slice(), Step::Index(index))?;
            match node {
                Node::Leaf(leaf) => left = self.next_leaf(way.as_slice(), leaf, left)?,
                Node::Init(_, children) => left = self.nodes(way.as_slice(), children, left)?,
            }
            index = index.saturating_add(1);
        }
        Ok(left)
    }

    /// What changes of the next leaf, to which a way leads; and what is left to be given.
    fn next_leaf<'d>(
        &mut self,
        way: &[Step<'_>],
        leaf: &Leaf,
        given: Left<'d>,
    ) -> Result<Left<'d>, MakeError> {
        let [sections, left @ ..] = given else {
            return Ok(given);
        };
        self.leaf(way, leaf, sections.as_slice())?;
        Ok(left)
    }

    /// What changes of a leaf, to which a way leads.
    fn leaf(
        &mut self,
        way: &[Step<'_>],
        leaf: &Leaf,
        sections: &[SectionDonations],
    ) -> Result<(), MakeError> {
        match leaf.source() {
            Source::Text(_) => {
                let way = with_step(self.alloc, way, Step::Key(Key::Program.word()))?;
                let at = self.places.value(way.as_slice());
                let text = self.text.as_bytes();
                push_program(self.alloc, &mut self.edits, text, at, sections)
            }
            Source::Code(_) => Ok(()),
        }
    }
}

/// What changes in the programs of the text of a scenario so that their statements give this. Programs given as code stay.
pub(crate) fn program_edits(
    alloc: Global,
    text: &str,
    scenario: &Scenario,
    given: &[Vec<SectionDonations>],
) -> Result<Vec<Edit>, MakeError> {
    let mut programs = Programs {
        alloc,
        text,
        places: SourceMap::read(alloc, text)?,
        edits: Vec::new(alloc),
    };
    programs.nodes(&[], scenario.nodes(), given)?;
    Ok(programs.edits)
}
