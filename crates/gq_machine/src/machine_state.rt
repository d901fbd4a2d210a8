// What a machine has: what is fixed at load, and what changes.
use gq_leaf::Leaf;
use gq_model::section::Section;
use gq_prepared::{Opening, Services};
use gq_resolve::NodeTable;
use gq_slots::Slots;

/// What the steps of a leaf need beside its code: where its `open` statements lead, and which sections its program has.
#[derive(Drop)]
pub struct Prepared {
    pub openings: Vec<Opening>,
    pub sections: [bool; Section::ALL.len()],
}

/// What is fixed at load.
#[derive(Drop)]
pub struct Fixed {
    pub table: NodeTable,
    pub prepared: Vec<Prepared>,
    pub services: Services,
}

/// What changes: the leaves, and what they have in memory and sessions.
#[derive(Drop)]
pub struct MachineState {
    pub leaves: Vec<Leaf>,
    pub slots: Slots,
}
